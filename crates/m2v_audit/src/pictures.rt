//! How a picture changes what is kept of a sequence that is audited: its rules, its place in its group, and the account.
ghost use Rattle.std.specs.Prelude.{◌≡◌, ◌+◌, ◌*◌, ◌≤◌, ◌<◌, ◌^◌, Some, OnOk, IfSome};
ghost use Rattle.std.specs.Option.{option_map};
ghost use Rattle.m2v_strict.specs.m2v_check.Judging.{IsPlaced};
ghost use Rattle.m2v_audit.specs.Account.{Account as State, IsPicture, with_more};
ghost use Rattle.m2v_audit.specs.Auditing.{coded, constant_with, is_shown, counted, with_rules, preceding, with_told, with_place, with_parity, due_of, opened_by, account_by, with_account, with_coded, with_note, pictured, with_settled, total_of, IsSound, HasRoom, Keeps};
ghost use Rattle.m2v_audit.specs.Times.{after as times_after};

use crate::account::{Account, Due};
use crate::auditing::Auditing;
use crate::findings::{tell_breaches, tell_misplaced, tell_settled};
use crate::opening::{VARIABLE, first_buffer};
use crate::remarks::{tell_picture, tell_shown};
use crate::report::Report;
use crate::told::{bit_of, picture_record, waiting_of};
use m2v_model::{PictureNote, Sequence};
use m2v_strict::check::{CodedPicture, ends_frame, is_b, rate_of, rules_from_12, rules_to_10};
use m2v_strict::{Arrival, Preceding, ShownFrame, has_parity};
use std::alloc::{AllocError, Global};

/// The frame of a picture is shown with it.
fn is_shown(note: &PictureNote) -> bool
    ensures { result ≡ is_shown note.now }
{
    ends_frame(note) && !note.dropped
}

/// Tells the breaches of a picture, but for rule 11.
fn tell_rules(report: &mut Report, constant: bool, p: &CodedPicture) -> Result<(), AllocError>
    ensures { OnOk result (report.new ≡ with_rules report.old constant p.now) }
{
    let bit = bit_of(&p.note);
    tell_breaches(report, p.number, bit, &rules_to_10(p))?;
    tell_breaches(report, p.number, bit, &rules_from_12(constant, p))
}

/// The account of a sequence with this first header, where it has one, with its first picture.
fn opened_by(
    alloc: Global,
    first: &Option<Sequence>,
    note: &PictureNote,
    due: Due,
) -> Option<Account>
    requires picture { IsPicture due }
    requires most { due.bits ≤ 2 ^ 39 }
    requires delay { note.now.info.vbv_delay < 2 ^ 16 }
    ensures { result ≡ opened_by first.now note.now due }
{
    match first {
        Some(first) => match first_buffer(first, note, due.code_bits) {
            Some(buffer) => Some(Account::new(alloc, buffer, due)),
            None => None,
        },
        None => None,
    }
}

/// A picture comes: the account of a sequence with this first header is opened with it, or goes on.
fn account_by(
    alloc: Global,
    account: &mut Option<Account>,
    first: &Option<Sequence>,
    note: &PictureNote,
    due: Due,
) -> Result<(), AllocError>
    requires picture { IsPicture due }
    requires most { total_of account.old + due.bits ≤ 2 ^ 39 }
    requires delay { note.now.info.vbv_delay < 2 ^ 16 }
    ensures value { OnOk result (account.new ≡ account_by account.old first.now note.now due) }
    ensures total { total_of account.new ≤ total_of account.old + due.bits }
{
    match account {
        Some(account) => account.picture(due),
        None => {
            if due.number == 0 {
                *account = opened_by(alloc, first, note, due);
            }
            Ok(())
        }
    }
}

/// More bits of the last picture come, where there is an account.
fn account_more(account: &mut Option<Account>, bits: u64)
    requires most { total_of account.old + bits ≤ 2 ^ 39 }
    ensures value { account.new ≡ option_map (λ (x : State). with_more x bits) account.old }
    ensures total { total_of account.new ≤ total_of account.old + bits }
{
    match account {
        Some(account) => account.more(bits),
        None => {}
    }
}

impl Auditing {
    /// The picture that comes next, behind this sequence header.
    fn coded(&self, s: &Sequence, note: &PictureNote) -> CodedPicture
        ensures { result ≡ coded self.now s.now note.now }
    {
        CodedPicture {
            number: self.pictures,
            sequence: *s,
            first_in_group: self.first_in_group,
            note: *note,
        }
    }

    /// The rate is constant, as the first picture says.
    fn constant_with(&self, p: &CodedPicture) -> bool
        ensures { result ≡ constant_with self.now p.now }
    {
        if p.number == 0 {
            return p.note.info.vbv_delay != VARIABLE;
        }
        self.constant
    }

    /// Counts a picture.
    fn count(&mut self, p: &CodedPicture)
        requires few { self.old.pictures < 2 ^ 60 }
        ensures { self.new ≡ counted self.old p.now }
    {
        self.constant = self.constant_with(p);
        self.first_in_group = false;
        self.pictures += 1;
        if is_shown(&p.note) {
            self.frames = self.frames.saturating_add(1);
        }
    }

    /// What comes before a picture that comes next, behind this sequence header.
    fn preceding(&self, s: &Sequence) -> Preceding
        ensures value { result ≡ preceding self.now s.now }
        ensures rate { result.rate < 2 ^ 51 }
    {
        let first = self.first.unwrap_or(*s);
        Preceding {
            headed: self.headed,
            rate: rate_of(&first),
            picture: self.arrival,
        }
    }

    /// Tells a picture, and its breaches.
    fn tell(&mut self, p: &CodedPicture, bytes: u64, zeros: u64) -> Result<(), AllocError>
        requires bytes { bytes ≤ 2 ^ 36 }
        requires zeros { zeros ≤ 2 ^ 36 }
        ensures value { OnOk result (self.new ≡ with_told self.old p.now bytes zeros) }
        ensures keeps { Keeps self.old self.new }
    {
        let record = picture_record(self.report.number(), p, bytes, zeros);
        self.report.picture(&record)?;
        tell_rules(&mut self.report, self.constant, p)?;
        let before = self.preceding(&p.sequence);
        let report = &mut self.report;
        tell_picture(report, self.rules, &before, self.constant, &self.runs, p)?;
        self.headed = false;
        self.runs.picture(p, record.fields);
        Ok(())
    }

    /// Gives the picture's frame its place, and tells which frames stand wrong by it.
    fn place(&mut self, p: &CodedPicture) -> Result<(), AllocError>
        requires few { self.old.places.shown < 2 ^ 60 }
        ensures value { OnOk result (self.new ≡ with_place self.old p.now) }
        ensures shown { self.new.places.shown ≤ self.old.places.shown + 1 }
        ensures pictures { self.new.pictures ≡ self.old.pictures }
        ensures bytes { self.new.bytes ≡ self.old.bytes }
        ensures total { total_of self.new.account ≡ total_of self.old.account }
    {
        let waiting = waiting_of(p);
        if !ends_frame(&p.note) {
            self.places.field(waiting);
            return Ok(());
        }
        let told = self.places.frame(waiting, is_b(&p.note.info));
        tell_misplaced(&mut self.report, &told)
    }

    /// Tells the warning on the frame that is shown by the picture, where one is.
    fn parity(&mut self, p: &CodedPicture) -> Result<(), AllocError>
        ensures value { OnOk result (self.new ≡ with_parity self.old p.now) }
        ensures keeps { Keeps self.old self.new }
    {
        if !has_parity(p) {
            return Ok(());
        }
        let last = self.parity.last;
        let frame = ShownFrame::new(p, bit_of(&p.note));
        let shown = self.parity.frame(frame, is_b(&p.note.info));
        tell_shown(&mut self.report, last, &shown)
    }

    /// The picture as the buffer sees it, of a piece that begins at a byte of the input and has so many bytes.
    fn due(&mut self, p: &CodedPicture, place: u64, bytes: u64) -> Due
        requires placed { IsPlaced p.now.note place bytes }
        requires place { place ≤ 2 ^ 36 }
        requires bytes { bytes ≤ 2 ^ 36 }
        ensures value { result ≡ due_of self.old p.now place bytes }
        ensures picture { IsPicture result }
        ensures after { self.new ≡ record self.old {
          times = times_after self.old.times p.now.sequence p.now.note;
        } }
    {
        Due {
            number: p.number,
            bit: bit_of(&p.note),
            bits: 8 * bytes,
            code_bits: p.note.code_end - 8 * place,
            units: self.times.next(&p.sequence, &p.note),
            delay: u64::from(p.note.info.vbv_delay),
        }
    }

    /// The account is opened with a picture, or goes on with it.
    fn account(
        &mut self,
        alloc: Global,
        p: &CodedPicture,
        place: u64,
        bytes: u64,
    ) -> Result<(), AllocError>
        requires placed { IsPlaced p.now.note place bytes }
        requires place { place ≤ 2 ^ 36 }
        requires bytes { bytes ≤ 2 ^ 36 }
        requires most { total_of self.old.account + 8 * bytes ≤ 2 ^ 39 }
        ensures value { OnOk result (self.new ≡ with_account self.old p.now place bytes) }
        ensures places { self.new.places ≡ self.old.places }
        ensures pictures { self.new.pictures ≡ self.old.pictures }
        ensures bytes { self.new.bytes ≡ self.old.bytes }
        ensures total { total_of self.new.account ≤ total_of self.old.account + 8 * bytes }
    {
        let due = self.due(p, place, bytes);
        self.arrival = Some(Arrival {
            code_end: p.note.code_end,
            units: due.units,
            delay: due.delay,
        });
        account_by(alloc, &mut self.account, &self.first, &p.note, due)
    }

    /// A picture comes, of a piece of so many bytes, of which so many zero bytes end it.
    fn picture(
        &mut self,
        alloc: Global,
        p: &CodedPicture,
        place: u64,
        bytes: u64,
        zeros: u64,
    ) -> Result<(), AllocError>
        requires placed { IsPlaced p.now.note place bytes }
        requires place { place + bytes ≤ 2 ^ 36 }
        requires zeros { zeros ≤ bytes }
        requires room { HasRoom self.old bytes }
        ensures value { OnOk result (self.new ≡ with_coded self.old p.now place bytes zeros) }
        ensures sound { IsSound self.new }
    {
        self.count(p);
        self.tell(p, bytes, zeros)?;
        self.place(p)?;
        self.parity(p)?;
        self.account(alloc, p, place, bytes)
    }

    /// The picture of a piece that has one, where a sequence header came before it.
    fn headed_picture(
        &mut self,
        alloc: Global,
        n: &PictureNote,
        place: u64,
        bytes: u64,
        zeros: u64,
    ) -> Result<(), AllocError>
        requires placed { IsPlaced n.now place bytes }
        requires place { place + bytes ≤ 2 ^ 36 }
        requires zeros { zeros ≤ bytes }
        requires room { HasRoom self.old bytes }
        ensures value { OnOk result (self.new
            ≡ with_note self.old self.old.sequence (Some n.now) place bytes zeros) }
        ensures sound { IsSound self.new }
    {
        match self.sequence {
            Some(s) => {
                let p = self.coded(&s, n);
                self.picture(alloc, &p, place, bytes, zeros)
            }
            None => Ok(()),
        }
    }

    /// The picture of a piece that has one, or more bits of the one before it.
    pub(crate) fn note(
        &mut self,
        alloc: Global,
        note: &Option<PictureNote>,
        place: u64,
        bytes: u64,
        zeros: u64,
    ) -> Result<(), AllocError>
        requires placed { IfSome note.now (λ n. IsPlaced n place bytes) }
        requires place { place + bytes ≤ 2 ^ 36 }
        requires zeros { zeros ≤ bytes }
        requires room { HasRoom self.old bytes }
        ensures value { OnOk result (self.new ≡ pictured self.old place bytes zeros note.now) }
        ensures sound { IsSound self.new }
    {
        match note {
            Some(n) => self.headed_picture(alloc, n, place, bytes, zeros),
            None => {
                account_more(&mut self.account, 8 * bytes);
                Ok(())
            }
        }
    }

    /// Tells all removals that are settled.
    pub(crate) fn settle(&mut self) -> Result<(), AllocError>
        ensures value { OnOk result (self.new ≡ with_settled self.old) }
        ensures keeps { Keeps self.old self.new }
    {
        match &mut self.account {
            Some(account) => tell_settled(&mut self.report, &self.rate, account),
            None => Ok(()),
        }
    }
}
