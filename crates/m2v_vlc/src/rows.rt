ghost use Rattle.std.specs.Prelude.{◌≡◌, ◌+◌, ◌^◌, ◌<◌, ◌≤◌, ◌++◌, cond, length, slice_index, OnErr};
ghost use Rattle.std.specs.List.{list_any};
ghost use Rattle.m2v_bits.specs.Outputs.{Gains};
ghost use Rattle.m2v_bits.specs.Syntax.{Gives};
ghost use Rattle.m2v_vlc.specs.Codes.{code_at, is_cut};
ghost use Rattle.m2v_vlc.specs.Lookups.{rows_of, IsTable, Points, code_in, begins_by_number, spelled};

use crate::values::CodeFault;
use m2v_bits::{BitOutput, BitReader, BitWriter};

/// A code as `BitWriter::put` takes it.
#[derive(Clone, Copy)]
pub struct Code {
    /// Its bits as a number.
    pub number: u32,
    /// How many bits it has, 0 where there is none.
    pub len: u8,
}

/// Whether the code of a row begins with the number p of `left` bits.
fn begins_any<V: Copy>(rows: &[(V, u16, u8)], left: u8, p: u32) -> bool
    ensures { result ≡ list_any (λ e. begins_by_number left p e.1 e.2) rows.now }
{
    rows.iter().any(|e| e.2 <= 17 && left <= e.2 && ((e.1 as u32) >> (e.2 - left)) == p)
}

/// Why no row's code stands at the reader, where none does.
#[cold]
fn fault<V: Copy>(rows: &[(V, u16, u8)], input: &BitReader) -> CodeFault
    requires { IsTable (rows_of rows.now) }
    ensures { result ≡ cond (is_cut (rows_of rows.now) input.now.rest) CodeFault.Truncated
        CodeFault.NoCode }
{
    let left = input.left();
    if left > 17 {
        return CodeFault::NoCode;
    }
    let left = left as u8;
    if begins_any(rows, left, input.peek(left)) {
        CodeFault::Truncated
    } else {
        CodeFault::NoCode
    }
}

/// Reads the code at the reader, whose row is at i, or past the rows where no code stands there.
#[inline(always)]
pub fn read_row<V: Copy>(
    rows: &[(V, u16, u8)],
    i: u8,
    input: &mut BitReader,
) -> Result<V, CodeFault>
    requires table { IsTable (rows_of rows.now) }
    requires points { Points (rows_of rows.now) i input.old.rest }
    ensures exact { Gives result input.new.rest
        ((code_at CodeFault.Truncated CodeFault.NoCode (rows_of rows.now)).read input.old.rest) }
    ensures text { input.new.text ≡ input.old.text }
    ensures same { OnErr result (input.new ≡ input.old) }
{
    if (i as usize) < rows.len() {
        // by place: a row that is copied whole is taken apart by shifts
        let row = &rows[i as usize];
        if (row.2 as u64) <= input.left() {
            input.skip(row.2);
            return Ok(row.0);
        }
    }
    Err(fault(rows, input))
}

/// The code of the row at i, of no bits past the rows.
#[inline(always)]
pub fn row_code<V: Copy>(rows: &[(V, u16, u8)], i: u8) -> Code
    requires { IsTable (rows_of rows.now) }
    ensures spelled { spelled result ≡ code_in (rows_of rows.now) i }
    ensures width { result.len ≤ 17 }
    ensures fits { result.number < 2 ^ result.len }
{
    if (i as usize) < rows.len() {
        let row = rows[i as usize];
        Code {
            number: row.1 as u32,
            len: row.2,
        }
    } else {
        Code { number: 0, len: 0 }
    }
}

/// How many bits a code has.
#[inline(always)]
#[tactic(auto, using(m2v_bits::proofs::Cursor::lengths))]
pub fn bits_of_code(code: Code) -> u32
    ensures { result ≡ length (spelled code) }
{
    code.len as u32
}

/// Appends a code to whatever takes bits.
#[inline(always)]
#[tactic(auto, using(m2v_bits::proofs::Cursor::lengths))]
pub fn append_code<O: BitOutput>(code: Code, out: &mut O)
    requires width { code.len ≤ 17 }
    requires fits { code.number < 2 ^ code.len }
    requires room { length (spelled code) ≤ O.space out.old }
    ensures { Gains O.took O.space out.old (spelled code) out.new }
{
    out.append(code.number, code.len);
}

/// Writes a code.
#[inline(always)]
#[tactic(auto, using(m2v_bits::proofs::Cursor::lengths))]
pub fn put_code(code: Code, out: &mut BitWriter)
    requires width { code.len ≤ 17 }
    requires fits { code.number < 2 ^ code.len }
    requires room { length (spelled code) ≤ out.old.room }
    ensures written { out.new.written ≡ out.old.written ++ spelled code }
    ensures room { out.new.room + length (spelled code) ≡ out.old.room }
{
    out.put(code.number, code.len);
}

/// What a look-up holds at i.
#[inline(always)]
pub fn at(lookup: &[u8], i: u32) -> u8
    requires { i < length lookup.now }
    ensures { result ≡ slice_index lookup.now i }
{
    lookup[i as usize]
}
