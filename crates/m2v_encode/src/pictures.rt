//! The pictures of a group, written one behind another.
ghost use Rattle.std.specs.Prelude.{◌≡◌, ◌+◌, ◌-◌, ◌*◌, ◌/◌, ◌%◌, ◌^◌, ◌<◌, ◌≤◌, Bool, IsTrue, IfErr, OnOk, OnErr, IfOk, length, replicate, slice_index, nat_eq, ◌&&◌, if◌then◌else◌, false};
ghost use Rattle.m2v_bits.specs.Bits.{bits, packed};
ghost use Rattle.m2v_port.specs.Ends.{change, SinkStays};
ghost use Rattle.m2v_port.specs.Port.{Grows};
ghost use Rattle.m2v_set.specs.declared.settings.Settings.{Settings};
ghost use Rattle.m2v_set.specs.Numbers.{buffer_bits};
ghost use Rattle.m2v_vbv.specs.Account.{stuffing_of};
ghost use Rattle.m2v_rate.specs.Plans.{account_at};
ghost use Rattle.m2v_slice.specs.Headers.{header_units, bits_to_code};
ghost use Rattle.m2v_slice.specs.Books.{rows, job_at, size_of};
ghost use Rattle.m2v_law_shown.specs.m2v_enc_stream.Streams.{zeros_of, delay_at, picture_text, pictures_text, zeros_sum};
ghost use Rattle.m2v_encode.specs.Groups.{all_coded, whole_ledger, slices_text, group_text, IsPlace};
ghost use Rattle.m2v_encode.specs.Steps.{PutStops, Puts, Sent};

use crate::answer::{EncodeError, Summary};
use crate::done::DoneGroup;
use m2v_bits::BitWriter;
use m2v_order::PictureJob;
use m2v_port::{PortError, Sink};
use m2v_rate::{Ledger, account_before};
use m2v_set::Passed;
use m2v_slice::{bits_to_code, write_headers};
use m2v_vbv::Account;

/// How many zero bytes are written at once.
const ZEROS: usize = 512;

/// Writes bytes.
pub(crate) fn put_bytes<K: Sink>(bytes: &[u8], output: &mut K) -> Result<(), EncodeError>
    requires output { IsTrue (K.ready output.old) }
    ensures put { Puts bytes.now (change K.held K.faults output.old output.new) result }
    ensures output { SinkStays K.ready K.name K.faults output.old output.new }
{
    match output.put(bytes) {
        Ok(()) => Ok(()),
        Err(PortError::Failed) => Err(EncodeError::Write),
        Err(PortError::Memory) => Err(EncodeError::Memory),
    }
}

/// Writes the bytes of a text.
pub(crate) fn put_text<K: Sink>(bytes: &[u8], output: &mut K) -> Result<(), EncodeError>
    requires output { IsTrue (K.ready output.old) }
    ensures put { Puts (packed (bits bytes.now))
        (change K.held K.faults output.old output.new) result }
    ensures output { SinkStays K.ready K.name K.faults output.old output.new }
{
    put_bytes(bytes, output)
}

/// Writes a few zero bytes.
fn put_some_zeros<K: Sink>(count: usize, output: &mut K) -> Result<(), EncodeError>
    requires few { count ≤ 512 }
    requires output { IsTrue (K.ready output.old) }
    ensures put { Puts (replicate count 0) (change K.held K.faults output.old output.new) result }
    ensures output { SinkStays K.ready K.name K.faults output.old output.new }
{
    let zeros = [0u8; ZEROS];
    put_bytes(&zeros[..count], output)
}

/// Writes zero bytes.
fn put_zeros<K: Sink>(count: u64, output: &mut K) -> Result<(), EncodeError>
    requires output { IsTrue (K.ready output.old) }
    ensures put { Puts (replicate count 0) (change K.held K.faults output.old output.new) result }
    ensures output { SinkStays K.ready K.name K.faults output.old output.new }
{
    let mut left = count;
    while left > 0 {
        let n = left.min(ZEROS as u64);
        put_some_zeros(n as usize, output)?;
        left -= n;
    }
    Ok(())
}

/// The delay (vbv_delay) of a picture that is removed at an account, in ticks of 1/90,000 s: what is held, but for its own
/// bits up to and with its start code, arrives in that time.
fn delay_from(settings: &Passed, account: Account, code: u64) -> u32
    requires code { code ≤ 272 }
    requires held { 1800 * code ≤ account.held }
    requires most { account.held ≤ 1800 * buffer_bits settings.now }
    ensures value { result ≡ (account.held - 1800 * code) / (8 * settings.now.bits) }
    ensures small { result < 65536 }
{
    let rate = u64::from(settings.settings().bits);
    ((account.held() as u64 - 1800 * code) / (8 * rate)) as u32
}

impl DoneGroup {
    /// Writes the headers of a picture.
    fn put_headers<K: Sink>(
        &self,
        p: u32,
        account: Account,
        headers: &mut BitWriter,
        output: &mut K,
    ) -> Result<(), EncodeError>
        requires picture { p < length self.now.pictures }
        requires held { 489600 ≤ account.held }
        requires most { account.held ≤ 1800 * buffer_bits self.now.settings }
        requires room { 384 ≤ headers.old.room + length headers.old.written }
        requires output { IsTrue (K.ready output.old) }
        ensures put { Puts (packed (header_units self.now.settings (job_at self.now p)
            ((account.held - 1800 * bits_to_code (job_at self.now p)) /
            (8 * self.now.settings.bits))))
            (change K.held K.faults output.old output.new) result }
        ensures room { 384 ≤ headers.new.room + length headers.new.written }
        ensures output { SinkStays K.ready K.name K.faults output.old output.new }
    {
        let job = self.job(p);
        let delay = delay_from(self.settings(), account, bits_to_code(job));
        headers.clear();
        write_headers(self.settings(), job, delay, headers);
        put_text(headers.bytes(), output)
    }

    /// Writes the slices of a picture.
    fn put_slices<K: Sink>(&self, p: u32, output: &mut K) -> Result<(), EncodeError>
        requires picture { p < length self.now.pictures }
        requires output { IsTrue (K.ready output.old) }
        ensures put { Puts (packed (slices_text self.now p (rows self.now)))
            (change K.held K.faults output.old output.new) result }
        ensures output { SinkStays K.ready K.name K.faults output.old output.new }
    {
        for r in 0..self.rows() {
            put_text(self.slice(p, r).bytes(), output)?;
        }
        Ok(())
    }

    /// The zero bits behind a picture of so many bits that is removed at an account.
    fn zeros_behind(&self, p: u32, ends: bool, account: Account, size: u64) -> u64
        requires picture { p < length self.now.pictures }
        requires size { size < 2 ^ 32 }
        requires whole { 1800 * size ≤ account.held }
        requires taken { account.held ≤ 1800 * account.start.buffer_bits }
        ensures value { result ≡ (if ends && nat_eq (p + 1) (length self.now.pictures) then 0
            else stuffing_of account size (slice_index self.now.ledger.intervals p)) }
        ensures bytes { result % 8 ≡ 0 }
        ensures small { result < 2 ^ 40 }
    {
        let count = self.pictures();
        if ends && p + 1 == count {
            return 0;
        }
        account.stuffing(size, self.time(p))
    }

    /// Writes a picture: its headers, its slices, and the zero bytes behind it; what it brings is added to the numbers.
    fn put_picture<K: Sink>(
        &self,
        p: u32,
        ends: bool,
        ledger: &Ledger,
        headers: &mut BitWriter,
        total: &mut Summary,
        output: &mut K,
    ) -> Result<(), EncodeError>
        requires picture { p < length self.now.pictures }
        requires ledger { ledger.now ≡ whole_ledger self.now }
        requires place { IsPlace self.now.settings (account_at ledger.now p) (8 * total.old.bytes) }
        requires begun { 272 ≤ 8 * total.old.bytes + bits_to_code (job_at self.now p) }
        requires few { (total.old.pictures < 2 ^ 40) × (total.old.bytes < 2 ^ 60)
            × (total.old.stuffing < 2 ^ 60) }
        requires room { 384 ≤ headers.old.room + length headers.old.written }
        requires output { IsTrue (K.ready output.old) }
        ensures grown { OnOk result (Grows (K.held output.old)
            (packed (picture_text self.now (all_coded self.now) ledger.now ends
            (8 * total.old.bytes) p))
            (K.held output.new)) }
        ensures sent { OnOk result (Sent total.old total.new
            (size_of self.now (all_coded self.now) p) (zeros_of ledger.now ends p)) }
        ensures most { OnOk result (total.new.bytes ≤ total.old.bytes + 2 ^ 21) }
        ensures err { IfErr result (PutStops
            (packed (picture_text self.now (all_coded self.now) ledger.now ends
            (8 * total.old.bytes) p))
            (change K.held K.faults output.old output.new)) }
        ensures room { 384 ≤ headers.new.room + length headers.new.written }
        ensures output { SinkStays K.ready K.name K.faults output.old output.new }
    {
        // a book's ledger is steady
        let _book = self.pictures();
        let account = account_before(ledger, p);
        let size = self.size(p);
        let zeros = self.zeros_behind(p, ends, account, size);
        self.put_headers(p, account, headers, output)?;
        self.put_slices(p, output)?;
        put_zeros(zeros / 8, output)?;
        total.pictures += 1;
        total.bytes += (size + zeros) / 8;
        total.stuffing += zeros / 8;
        Ok(())
    }

    /// Writes all pictures of the group. `ends` tells that it is the last one of the stream.
    pub(crate) fn put_pictures<K: Sink>(
        &self,
        ends: bool,
        ledger: &Ledger,
        headers: &mut BitWriter,
        total: &mut Summary,
        output: &mut K,
    ) -> Result<(), EncodeError>
        requires ledger { ledger.now ≡ whole_ledger self.now }
        requires place { IsPlace self.now.settings (account_at ledger.now 0) (8 * total.old.bytes) }
        requires few { (total.old.pictures < 2 ^ 32) × (total.old.bytes < 2 ^ 59)
            × (total.old.stuffing < 2 ^ 59) }
        requires room { 384 ≤ headers.old.room + length headers.old.written }
        requires output { IsTrue (K.ready output.old) }
        ensures grown { OnOk result (Grows (K.held output.old)
            (packed (group_text self.now ends (8 * total.old.bytes))) (K.held output.new)) }
        ensures frames { OnOk result (total.new.frames ≡ total.old.frames) }
        ensures pictures { OnOk result (total.new.pictures ≡ total.old.pictures
            + length self.now.pictures) }
        ensures bytes { OnOk result (8 * total.new.bytes
            ≡ 8 * total.old.bytes + length (group_text self.now ends (8 * total.old.bytes))) }
        ensures stuffing { OnOk result (8 * total.new.stuffing
            ≡ 8 * total.old.stuffing + zeros_sum ledger.now ends (length self.now.pictures)) }
        ensures place { OnOk result (ends ≡ false → IsPlace self.now.settings
            (account_at ledger.now (length self.now.pictures)) (8 * total.new.bytes)) }
        ensures most { OnOk result
            (total.new.bytes ≤ total.old.bytes + 2 ^ 21 * length self.now.pictures) }
        ensures within { OnOk result (total.new.stuffing + total.old.bytes ≤ total.old.stuffing
            + total.new.bytes) }
        ensures err { IfErr result
            (PutStops (packed (group_text self.now ends (8 * total.old.bytes)))
            (change K.held K.faults output.old output.new)) }
        ensures room { 384 ≤ headers.new.room + length headers.new.written }
        ensures output { SinkStays K.ready K.name K.faults output.old output.new }
    {
        let count = self.pictures();
        for p in 0..count {
            self.put_picture(p, ends, ledger, headers, total, output)?;
        }
        Ok(())
    }
}
