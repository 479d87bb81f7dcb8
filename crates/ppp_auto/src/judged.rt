//! How the options of a Configure-Request are judged (RFC 1661 sections 5.2 to 5.4).

ghost use Rattle.std.specs.Prelude.{◌≡◌, ◌<◌, ◌≤◌, ◌||◌, ◌&&◌, [], false, true, length, slice_index_or, slice_set};
ghost use Rattle.std.specs.Option.{option_to_list};
ghost use Rattle.ppp_packet.specs.ConfigOption.{ConfigOption};
ghost use Rattle.ppp_packet.specs.declared.options.TheConstants.{MOST_BODY};
ghost use Rattle.ppp_packet.specs.OptRef.{option_seen};
ghost use Rattle.ppp_auto.specs.Judged.{AreJudgedBy, AreSettled, CorrectsOne, IsJudged, judging_by, JudgesOne, RefusesOne};
ghost use Rattle.ppp_auto.specs.Reply.{is_refused, rejected, suggested, unacceptable};

use crate::front::Front;
use crate::option_table::OptionTable;
use crate::verdict::Verdict;
use ppp_packet::{Opt, OptList, OptRef, Options};

/// What was found in a request's options so far.
#[derive(Drop)]
pub(crate) struct Judged {
    /// Whether no further Configure-Nak is sent for bad options.
    spent: bool,
    /// Whether one of them is rejected.
    refused: bool,
    /// Whether something else is suggested in the place of one.
    bad: bool,
    /// What is rejected, else the bad ones where Configure-Naks are spent, else what is suggested.
    pub(crate) front: Front,
}

impl Judged {
    /// Before the first option.
    pub(crate) fn new(spent: bool) -> Judged
        ensures { IsJudged spent [] [] [] result }
    {
        Judged {
            spent,
            refused: false,
            bad: false,
            front: Front::new(),
        }
    }

    /// Judges the options of a request against the own list, and what is missing among them.
    pub(crate) fn settle<T: OptionTable>(
        &mut self,
        table: &T,
        own: &OptList,
        theirs: &Options<'_>,
        word: u64,
    )
        requires { IsJudged self.old.spent [] [] [] self.old }
        ensures { AreSettled (T.table table.now) own.now self.old.spent word theirs.now self.new }
    {
        self.judge(table, own, theirs, word);
        if self.rejects() {
            return;
        }
        if let Some(option) = table.missing(own, theirs, word) {
            self.front.put(option.kind(), option.body());
        }
    }

    /// Judges the options of a request against the own list, one after another.
    fn judge<T: OptionTable>(&mut self, table: &T, own: &OptList, theirs: &Options<'_>, word: u64)
        requires { IsJudged self.old.spent [] [] [] self.old }
        ensures { AreJudgedBy (T.table table.now) own.now self.old.spent word theirs.now self.new }
    {
        let mut seen = [false; 256];
        let mut left = theirs.copied();
        'options: while let Some((option, behind)) = left.split_first() {
            let twice = mark(&mut seen, option.kind);
            self.judge_one(option, &table.judge(own, option, word), twice);
            left = behind;
        }
    }

    /// Takes an option and what the table thinks of it. `twice` says that its kind stood before it.
    fn judge_one(&mut self, option: OptRef<'_>, verdict: &Verdict, twice: bool)
        requires { length option.body.now ≤ MOST_BODY }
        ensures { JudgesOne self.old self.new twice (option_seen option.entry) verdict.now }
    {
        if is_rejected(twice, verdict, &option) {
            self.refuse(option);
        } else if let Verdict::Bad(better) = verdict {
            self.correct(option, better);
        }
    }

    /// Takes an option that is rejected.
    fn refuse(&mut self, option: OptRef<'_>)
        requires { length option.body.now ≤ MOST_BODY }
        ensures { RefusesOne self.old self.new (option_seen option.entry) }
    {
        if self.refused {
            self.front.put(option.kind, option.body);
            return;
        }
        self.refused = true;
        self.front.clear();
        self.front.put(option.kind, option.body);
    }

    /// Takes an option in the place of which another is suggested.
    fn correct(&mut self, option: OptRef<'_>, better: &Opt)
        requires { length option.body.now ≤ MOST_BODY }
        ensures { CorrectsOne self.old self.new (option_seen option.entry) better.now }
    {
        self.bad = true;
        if self.refused {
            return;
        }
        if self.spent {
            self.front.put(option.kind, option.body);
        } else {
            self.front.put(better.kind(), better.body());
        }
    }

    /// Whether options are rejected: some are, or some are bad and Configure-Naks are spent.
    pub(crate) fn rejects(&self) -> bool
        ensures { result ≡ (self.now.refused || (self.now.bad && self.now.spent)) }
    {
        self.refused || (self.bad && self.spent)
    }
}

/// Marks a kind as seen, and tells whether it was before.
fn mark(seen: &mut [bool; 256], kind: u8) -> bool
    ensures kind { kind < 256 }
    ensures before { result ≡ slice_index_or seen.old kind false }
    ensures after { seen.new ≡ slice_set seen.old kind true }
{
    let place = usize::from(kind);
    let before = seen[place];
    seen[place] = true;
    before
}

/// Whether an option is to be rejected: its kind stood before it, or its verdict is such.
fn is_rejected(twice: bool, verdict: &Verdict, option: &OptRef<'_>) -> bool
    ensures { result ≡ (twice || is_refused (option_seen option.now) verdict.now) }
{
    twice || is_refused(verdict, option)
}

/// Whether an option of this verdict is to be rejected: it is unknown, or it is bad with nothing better.
fn is_refused(verdict: &Verdict, option: &OptRef<'_>) -> bool
    ensures { result ≡ is_refused (option_seen option.now) verdict.now }
{
    match verdict {
        Verdict::Good => false,
        Verdict::Bad(better) => better.is_same(option),
        Verdict::Unknown => true,
    }
}
