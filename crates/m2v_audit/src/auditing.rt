//! What is kept of a sequence that is audited, and how headers and pictures change it.
ghost use Rattle.std.specs.Prelude.{◌≡◌, ◌≤◌, ◌<◌, ◌^◌, slice_get, OnOk};
ghost use Rattle.m2v_model.specs.PieceNotes.{noted};
ghost use Rattle.m2v_audit.specs.Auditing.{nothing, sequence_of, with_first, begun_by, begun, leading, behind, with_sequence, with_group_by, with_group, with_header, sequences_of, with_headers, Keeps};

use crate::account::Account;
use crate::asked::Asked;
use crate::findings::{Place, tell_breaches, tell_misplaced};
use crate::headers::PieceHeader;
use crate::opening::kind_of;
use crate::places::Places;
use crate::remarks::{Behind, tell_group, tell_sequence};
use crate::report::{Rate, Report};
use crate::times::Times;
use crate::told::{group_record, rate_with, sequence_record};
use m2v_model::macro_library::head::{GroupInfo, SequenceExtension, SequenceInfo};
use m2v_model::{Notes, PictureNote, Sequence};
use m2v_strict::check::sequence_rules;
use m2v_strict::{Arrival, Display, Leading, Parity, RuleSet, Runs};
use std::alloc::{AllocError, Global};

/// How a piece ends.
#[derive(Clone, Copy)]
pub struct PieceEnd {
    /// Where, in bits of the input.
    pub bit: u64,
    /// A sequence end code ends it.
    pub closed: bool,
}

/// What is kept of a sequence that is audited.
#[derive(Drop)]
pub struct Auditing {
    pub report: Report,
    /// The rules that are looked at beside those of the Main profile.
    pub rules: RuleSet,
    /// The first sequence header of all, where sequences came before.
    pub like: Option<Sequence>,
    /// The byte of the input where the sequence's text begins.
    pub start: u64,
    /// The first sequence header, once the sequence was told.
    pub first: Option<Sequence>,
    /// The last one.
    pub sequence: Option<Sequence>,
    /// A sequence header came, and no picture after it.
    pub headed: bool,
    /// A group header came, and no picture after it.
    pub first_in_group: bool,
    /// What the pictures so far come to.
    pub runs: Runs,
    pub pictures: u64,
    pub groups: u64,
    /// The frames that are shown.
    pub frames: u64,
    pub bytes: u64,
    /// How the last piece ends, once one came.
    pub last: Option<PieceEnd>,
    /// The first vbv_delay doesn't say that the rate is variable.
    pub constant: bool,
    /// Where frames stand in their group.
    pub places: Places,
    /// The parity of the fields that are shown.
    pub parity: Parity,
    /// The last group header.
    pub group: Option<GroupInfo>,
    /// The sequence display extension of the first sequence header, once one came.
    pub display: Option<Option<Display>>,
    /// The times of removals.
    pub times: Times,
    /// How the buffer is filled.
    pub rate: Rate,
    /// The last picture, as the arrival of the next one's bits asks for it.
    pub arrival: Option<Arrival>,
    /// The buffer's account, where the sequence has one.
    pub account: Option<Account>,
}

/// A sequence header with what its extension says.
fn sequence_of(pair: &(SequenceInfo, SequenceExtension)) -> Sequence
    ensures { result ≡ sequence_of pair.now }
{
    Sequence {
        info: pair.0,
        extension: pair.1,
    }
}

impl PieceHeader {
    /// How many sequence headers it is.
    #[tactic(auto, unfolding(crate::specs::Auditing::sequences_of))]
    fn sequences(&self) -> usize
        ensures value { result ≡ sequences_of self.now }
        ensures most { result ≤ 1 }
    {
        match self {
            PieceHeader::Sequence { .. } => 1,
            PieceHeader::Group { .. } => 0,
        }
    }
}

impl Auditing {
    /// Nothing was read of the sequence of this number, whose text begins at a byte of the input.
    pub(crate) fn new(alloc: Global, number: u64, asked: Asked, start: u64) -> Auditing
        ensures { result ≡ nothing number asked start }
    {
        Auditing {
            report: Report::new(alloc, number, asked.pictures),
            rules: asked.rules,
            like: asked.first,
            start,
            first: None,
            sequence: None,
            headed: false,
            first_in_group: false,
            runs: Runs::new(),
            pictures: 0,
            groups: 0,
            frames: 0,
            bytes: 0,
            last: None,
            constant: true,
            places: Places::new(false),
            parity: Parity::new(false),
            group: None,
            display: None,
            times: Times::new(false, 0),
            rate: Rate {
                constant: true,
                low_delay: false,
                size: 0,
            },
            arrival: None,
            account: None,
        }
    }

    /// The sequence begins, with its first header, which stands at a byte of the input, and the picture of its first piece.
    fn begin(
        &mut self,
        place: u64,
        s: &Sequence,
        note: &Option<PictureNote>,
    ) -> Result<(), AllocError>
        requires place { place ≤ 2 ^ 36 }
        ensures value { OnOk result (self.new ≡ with_first self.old place s.now note.now) }
        ensures keeps { Keeps self.old self.new }
    {
        let low_delay = s.extension.low_delay;
        self.first = Some(*s);
        self.places = Places::new(low_delay);
        self.parity = Parity::new(low_delay);
        self.times = Times::new(low_delay, s.info.frame_rate_code);
        self.rate = rate_with(s, note);
        let record = sequence_record(self.report.number(), 8 * place, s, kind_of(s, note));
        let skipped = place.saturating_sub(self.start);
        self.report.begin(skipped, self.start, &record)
    }

    /// The sequence begins, where its first piece has a sequence header.
    fn begin_by(
        &mut self,
        place: u64,
        sequences: &[(SequenceInfo, SequenceExtension)],
        note: &Option<PictureNote>,
    ) -> Result<(), AllocError>
        requires place { place ≤ 2 ^ 36 }
        ensures value { OnOk result (self.new
            ≡ begun_by self.old place (slice_get sequences.now 0) note.now) }
        ensures keeps { Keeps self.old self.new }
    {
        match sequences.first() {
            Some(pair) => self.begin(place, &sequence_of(pair), note),
            None => Ok(()),
        }
    }

    /// The sequence begins, with its first piece.
    pub(crate) fn begin_once(&mut self, place: u64, notes: &Notes) -> Result<(), AllocError>
        requires place { place ≤ 2 ^ 36 }
        ensures value { OnOk result (self.new
            ≡ begun self.old.first self.old place (noted notes.now)) }
        ensures keeps { Keeps self.old self.new }
    {
        match self.first {
            Some(_) => Ok(()),
            None => self.begin_by(place, &notes.sequences, &notes.picture),
        }
    }

    /// A sequence header at a bit of the input.
    fn sequence(&mut self, bit: u64, s: &Sequence) -> Result<(), AllocError>
        ensures value { OnOk result (self.new ≡ with_sequence self.old bit s.now) }
        ensures keeps { Keeps self.old self.new }
    {
        tell_breaches(&mut self.report, self.pictures, bit, &sequence_rules(s))?;
        let first = self.first.unwrap_or(*s);
        let (before, place) = (self.leading(), self.place_at(bit));
        tell_sequence(
            &mut self.report,
            self.rules,
            &self.like,
            &before,
            place,
            &first,
            s,
        )?;
        self.sequence = Some(*s);
        self.headed = true;
        Ok(())
    }

    /// Which headers came since the last picture.
    pub(crate) fn leading(&self) -> Leading
        ensures { result ≡ leading self.now }
    {
        Leading {
            sequence: self.headed,
            group: self.first_in_group,
        }
    }

    /// What stands before a group header.
    fn behind(&self) -> Behind
        ensures { result ≡ behind self.now }
    {
        Behind {
            headers: self.leading(),
            group: self.group,
            fields: self.runs.fields,
        }
    }

    /// Where a header at a bit of the input stands.
    pub(crate) fn place_at(&self, bit: u64) -> Place
        ensures picture { result.picture ≡ self.now.pictures }
        ensures bit { result.bit ≡ bit }
    {
        Place {
            picture: self.pictures,
            bit,
        }
    }

    /// What the stricter rules remark of a group header at a bit of the input, where a sequence header came before it.
    fn group_remarks(&mut self, bit: u64, g: &GroupInfo) -> Result<(), AllocError>
        ensures value { OnOk result (self.new ≡ record self.old {
          report = with_group_by self.old.report self.old.rules (behind self.old)
              self.old.pictures bit self.old.sequence g.now;
        }) }
        ensures keeps { Keeps self.old self.new }
    {
        let (before, place) = (self.behind(), self.place_at(bit));
        match &self.sequence {
            Some(s) => tell_group(&mut self.report, self.rules, &before, place, s, g),
            None => Ok(()),
        }
    }

    /// A group header at a bit of the input: the group before it ends.
    fn group(&mut self, bit: u64, g: &GroupInfo) -> Result<(), AllocError>
        requires few { self.old.places.shown < 2 ^ 61 }
        ensures value { OnOk result (self.new ≡ with_group self.old bit g.now) }
        ensures keeps { Keeps self.old self.new }
    {
        let number = self.report.number();
        let record = group_record(number, self.groups, bit, self.pictures, g);
        let told = self.places.close();
        tell_misplaced(&mut self.report, &told)?;
        self.report.group(&record)?;
        self.group_remarks(bit, g)?;
        self.first_in_group = true;
        self.group = Some(*g);
        self.runs.group();
        self.groups = self.groups.saturating_add(1);
        Ok(())
    }

    /// A header, and of a sequence header the next of what was noted of them.
    #[tactic(auto, unfolding(crate::specs::Auditing::with_header))]
    fn header(
        &mut self,
        header: &PieceHeader,
        noted: &[(SequenceInfo, SequenceExtension)],
        next: usize,
    ) -> Result<(), AllocError>
        requires few { self.old.places.shown < 2 ^ 61 }
        ensures value { OnOk result (self.new
            ≡ with_header self.old header.now (slice_get noted.now next)) }
        ensures keeps { Keeps self.old self.new }
    {
        match header {
            PieceHeader::Group { bit, info } => self.group(*bit, info),
            PieceHeader::Sequence { bit } => match noted.get(next) {
                Some(pair) => self.sequence(*bit, &sequence_of(pair)),
                None => Ok(()),
            },
        }
    }

    /// The headers of a piece, in turn, with what was noted of its sequence headers.
    #[tactic(auto, unfolding(crate::specs::Auditing::with_headers))]
    pub(crate) fn headers(
        &mut self,
        headers: &[PieceHeader],
        noted: &[(SequenceInfo, SequenceExtension)],
    ) -> Result<(), AllocError>
        requires few { self.old.places.shown < 2 ^ 61 }
        ensures value { OnOk result (self.new ≡ with_headers self.old noted.now 0 headers.now) }
        ensures keeps { Keeps self.old self.new }
    {
        let mut next = 0;
        for header in headers {
            self.header(header, noted, next)?;
            next += header.sequences();
        }
        Ok(())
    }
}
