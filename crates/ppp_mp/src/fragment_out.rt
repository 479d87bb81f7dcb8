//! The fragments of a packet.

ghost use Rattle.std.specs.Prelude.{◌≡◌, ◌+◌, ◌*◌, ◌<◌, ◌≤◌, [], ◌∷◌, ◌++◌, length, IfOk, Some, slice_get};
ghost use Rattle.ppp_mp.specs.FragmentOut.{all_octets};
ghost use Rattle.ppp_mp.specs.Batch.{octets_in};
ghost use Rattle.ppp_mp.specs.Header.{IsHeaderOf, header_octets};

use crate::batch::Batch;
use crate::header::{Header, long_octets, short_octets};
use crate::limits::{MOST_HELD, MOST_PACKET};
use ppp_memory::Memory;
use std::alloc::Global;
use std::marker::Model;

/// The octets of all fragments of one packet, with their headers.
pub const MOST_OCTETS: usize = MOST_PACKET + 4 * MOST_HELD;

/// A list of at most 256 fragments, each with its header. It is seen as the list of their octets.
#[derive(Drop)]
pub struct FragmentOut {
    batch: Batch,
}

impl Model for FragmentOut {
    ghost use Rattle.std.specs.Prelude.{ℕ, List};
    ghost use Rattle.ppp_mp.specs.FragmentOut.{fragments_seen, IsFragmentOut};

    ghost Value = { List (List ℕ) };

    ghost view = { fragments_seen };

    ghost invariant = { IsFragmentOut };
}

impl FragmentOut {
    /// A list without a fragment. It takes the memory for those of any packet, and is refused for want of memory alone.
    pub fn new(alloc: Global) -> Result<FragmentOut, Memory>
        ensures { IfOk result (λ out. out ≡ []) }
    {
        Ok(FragmentOut {
            batch: Batch::new(alloc, MOST_OCTETS)?,
        })
    }

    /// The number of fragments.
    pub fn count(&self) -> usize
        ensures { result ≡ length self.now }
    {
        self.batch.count()
    }

    /// The octets of a fragment.
    pub fn at(&self, i: usize) -> &[u8]
        requires { i < length self.now }
        ensures { slice_get self.now i ≡ Some result.now }
    {
        self.batch.at(i).1
    }

    pub(crate) fn clear(&mut self)
        ensures { self.new ≡ [] }
    {
        self.batch.clear();
    }

    /// Puts a fragment behind the others.
    pub(crate) fn push(&mut self, short: bool, header: Header, payload: &[u8])
        requires header { IsHeaderOf short header }
        requires few { length self.old < MOST_HELD }
        requires room { all_octets self.old + 4 + length payload.now ≤ MOST_OCTETS }
        ensures { self.new ≡ self.old ++ (header_octets short header ++ payload.now) ∷ [] }
    {
        put_header(&mut self.batch, short, header);
        self.batch.extend(payload);
        self.batch.finish(0);
    }
}

/// Puts a header behind what isn't finished.
fn put_header(batch: &mut Batch, short: bool, header: Header)
    requires header { IsHeaderOf short header }
    requires room { octets_in batch.old + 4 ≤ batch.old.room }
    ensures { batch.new ≡ record batch.old { begun = batch.old.begun ++ header_octets short header } }
{
    if short {
        batch.extend(&short_octets(header));
    } else {
        batch.extend(&long_octets(header));
    }
}
