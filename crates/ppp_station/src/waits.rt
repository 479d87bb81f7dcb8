//! Which requests wait on behind a step of an end's links.

ghost use Rattle.std.specs.Prelude.{◌≡◌, ◌<◌, ◌≤◌, Some};
ghost use Rattle.ppp_bundle.specs.Bundles.{bundle_at, control_of, Bundles};
ghost use Rattle.ppp_bundle.specs.declared.limits.TheConstants.{MOST_BUNDLES};
ghost use Rattle.ppp_bap.specs.Requests.{asked_of, IsOfLink};
ghost use Rattle.ppp_trunk.specs.Control.{is_same_link};
ghost use Rattle.ppp_trunk.specs.Phases.{IsTrunk};
ghost use Rattle.ppp_station.specs.Waits.{keeps_link, settled, settled_by, waits_on, AreControlsOf};

use crate::view::is_live;
use ppp_bap::{BUNDLES, Bap, BapAsk, Policy};
use ppp_bundle::{BundleTable, MOST_BUNDLES};
use ppp_trunk::Trunk;

/// The control links of all bundles.
pub(crate) fn controls_of(bundles: &BundleTable) -> [Option<u8>; BUNDLES]
    requires { bundles.now.limits.bundles ≡ MOST_BUNDLES }
    ensures { AreControlsOf bundles.now result }
{
    let mut controls = [None; BUNDLES];
    for i in 0..MOST_BUNDLES {
        controls[usize::from(i)] = bundles.control(i);
    }
    controls
}

/// Ends the waits that end by a step behind which the links are so.
pub(crate) fn settle<F: Policy>(before: &[Option<u8>; BUNDLES], trunk: &Trunk, bap: &mut Bap<F>)
    requires { IsTrunk trunk.now }
    ensures requests { (t : Bundles) → AreControlsOf t before.now
        → bap.new.requests ≡ settled t trunk.now bap.old.requests }
    ensures policy { bap.new.policy ≡ bap.old.policy }
{
    for i in 0..MOST_BUNDLES {
        settle_one(i, before[usize::from(i)], trunk, bap);
    }
}

/// Ends the wait of a bundle, if it ends by that step.
fn settle_one<F: Policy>(bundle: u8, before: Option<u8>, trunk: &Trunk, bap: &mut Bap<F>)
    requires bundle { bundle < MOST_BUNDLES }
    requires trunk { IsTrunk trunk.now }
    ensures requests { (t : Bundles) → before ≡ control_of bundle t
        → bap.new.requests ≡ settled_by bundle (asked_of bundle bap.old.requests) t trunk.now bap.old.requests }
    ensures policy { bap.new.policy ≡ bap.old.policy }
{
    let Some(request) = bap.waiting(bundle) else {
        return;
    };
    if !waits_on(bundle, before, request, trunk) {
        bap.reset(bundle);
    }
}

/// Whether a request waits on: its bundle keeps its control link, BACP is Opened there, and a link that is to be dropped is joined.
fn waits_on(bundle: u8, before: Option<u8>, request: BapAsk, trunk: &Trunk) -> bool
    requires bundle { bundle < MOST_BUNDLES }
    requires link { IsOfLink request }
    requires trunk { IsTrunk trunk.now }
    ensures { (t : Bundles) → before ≡ control_of bundle t → result ≡ waits_on bundle request t trunk.now }
{
    trunk.bundles().control(bundle) == before
        && is_live(bundle, trunk)
        && keeps_link(bundle, request, trunk)
}

/// Whether a link that is to be dropped is joined in the bundle.
fn keeps_link(bundle: u8, request: BapAsk, trunk: &Trunk) -> bool
    requires link { IsOfLink request }
    requires trunk { IsTrunk trunk.now }
    ensures { result ≡ keeps_link bundle request trunk.now.bundles }
{
    match request {
        BapAsk::Drop(link) => is_joined(link, bundle, trunk),
        _ => true,
    }
}

/// Whether a link, 1 to 16, is joined in the bundle.
fn is_joined(link: u8, bundle: u8, trunk: &Trunk) -> bool
    requires link { 1 ≤ link }
    requires trunk { IsTrunk trunk.now }
    ensures { result ≡ is_same_link (bundle_at link trunk.now.bundles) (Some bundle) }
{
    link <= trunk.links() && trunk.bundles().bundle_of(link) == Some(bundle)
}
