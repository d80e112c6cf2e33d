//! The lines of the report, record by record.
ghost use Rattle.std.specs.Prelude.{◌≡◌, ◌++◌, map, [], OnOk};
ghost use Rattle.m2v_audit.specs.Lines.{audit_line, columns_lines, skipped_text, sequence_line, group_line, picture_line, held_line, breach_line, warning_line, finding_columns, told, failure_line, fault_line, limit_line, count_line, end_line, total_line};

use crate::line::{Column, print};
use crate::records::{
    CountRecord, EndRecord, FailureRecord, Finding, GroupRecord, HeldRecord, PictureRecord,
    SequenceRecord, TotalRecord,
};
use crate::words::{
    LimitKind, column_names, failure_word, limit_word, name_with, rate_word, structure_word,
    type_word,
};
use std::alloc::{AllocError, Global};

/// Lines of the report, one after another. Each method appends the line of one record; where memory runs out, the lines
/// may end in a piece of one.
#[derive(Drop)]
pub struct Lines {
    /// Their bytes.
    pub(crate) text: Vec<u8>,
}

#[tactic(auto, unfolding(crate::specs::Lines::told))]
impl Lines {
    /// No lines.
    pub fn new(alloc: Global) -> Lines
        ensures { result.text.items ≡ [] }
    {
        Lines {
            text: Vec::new(alloc),
        }
    }

    /// The bytes of the lines.
    pub fn bytes(&self) -> &[u8]
        ensures { result.now ≡ self.now.text.items }
    {
        self.text.as_slice()
    }

    /// Takes the lines away.
    pub fn clear(&mut self)
        ensures { self.new.text.items ≡ [] }
    {
        self.text.clear();
    }

    /// The first line of a report: the version of its format, and the name of its rule set.
    pub fn audit(&mut self, rules: &str) -> Result<(), AllocError>
        ensures { OnOk result (self.new.text.items
            ≡ self.old.text.items ++ audit_line rules.now) }
    {
        print(
            &mut self.text,
            "audit",
            &[Column::of(1), Column::Word(rules)],
        )
    }

    /// The lines that name the columns of each kind of record.
    pub fn columns(&mut self) -> Result<(), AllocError>
        ensures { OnOk result (self.new.text.items ≡ self.old.text.items ++ columns_lines) }
    {
        self.text.extend_from_slice(column_names().as_bytes())
    }

    /// So many bytes that are no part of a sequence, the first of them at `byte`, where there are some.
    pub fn skipped(&mut self, sequence: u64, byte: u64, bytes: u64) -> Result<(), AllocError>
        ensures { OnOk result (self.new.text.items
            ≡ self.old.text.items ++ skipped_text sequence byte bytes) }
    {
        if bytes == 0 {
            return Ok(());
        }
        print(
            &mut self.text,
            "skipped",
            &[Column::of(sequence), Column::of(byte), Column::of(bytes)],
        )
    }

    /// A sequence.
    pub fn sequence(&mut self, s: &SequenceRecord) -> Result<(), AllocError>
        ensures { OnOk result (self.new.text.items
            ≡ self.old.text.items ++ sequence_line s.now) }
    {
        print(
            &mut self.text,
            "sequence",
            &[
                Column::of(s.sequence),
                Column::of(s.bit),
                Column::of(s.width),
                Column::of(s.height),
                Column::of(s.frame_rate_code),
                Column::of(s.aspect),
                Column::of(s.profile_and_level),
                Column::flag(s.progressive),
                Column::flag(s.low_delay),
                Column::of(s.bit_rate),
                Column::of(s.vbv_buffer_size),
                Column::Word(rate_word(s.rate)),
            ],
        )
    }

    /// A group of pictures header.
    pub fn group(&mut self, g: &GroupRecord) -> Result<(), AllocError>
        ensures { OnOk result (self.new.text.items
            ≡ self.old.text.items ++ group_line g.now) }
    {
        print(
            &mut self.text,
            "group",
            &[
                Column::of(g.sequence),
                Column::of(g.group),
                Column::of(g.bit),
                Column::of(g.picture),
                Column::flag(g.drop_frame),
                Column::of(g.hours),
                Column::of(g.minutes),
                Column::of(g.seconds),
                Column::of(g.pictures),
                Column::flag(g.closed),
                Column::flag(g.broken),
            ],
        )
    }

    /// A picture.
    pub fn picture(&mut self, p: &PictureRecord) -> Result<(), AllocError>
        ensures { OnOk result (self.new.text.items
            ≡ self.old.text.items ++ picture_line p.now) }
    {
        print(
            &mut self.text,
            "picture",
            &[
                Column::of(p.sequence),
                Column::of(p.picture),
                Column::of(p.bit),
                Column::Word(type_word(p.kind)),
                Column::Word(structure_word(p.structure)),
                Column::of(p.temporal_reference),
                Column::of(p.bits),
                Column::of(p.zeros),
                Column::of(p.vbv_delay),
                Column::of(p.fields),
                Column::flag(p.dropped),
            ],
        )
    }

    /// What the buffer holds when a picture is removed.
    pub fn held(&mut self, h: &HeldRecord) -> Result<(), AllocError>
        ensures { OnOk result (self.new.text.items
            ≡ self.old.text.items ++ held_line h.now) }
    {
        print(
            &mut self.text,
            "held",
            &[
                Column::of(h.sequence),
                Column::of(h.picture),
                Column::Number(h.time),
                Column::of(h.before),
                Column::of(h.taken),
                Column::of(h.after),
                Column::Number(h.delay),
                Column::of(h.wait),
            ],
        )
    }

    /// A breach of a rule.
    pub fn breach(&mut self, f: &Finding) -> Result<(), AllocError>
        ensures { OnOk result (self.new.text.items
            ≡ self.old.text.items ++ breach_line f.now) }
    {
        print(&mut self.text, "breach", &finding_columns(f))
    }

    /// A warning.
    pub fn warning(&mut self, f: &Finding) -> Result<(), AllocError>
        ensures { OnOk result (self.new.text.items
            ≡ self.old.text.items ++ warning_line f.now) }
    {
        print(&mut self.text, "warning", &finding_columns(f))
    }

    /// A failure of the buffer.
    pub fn failure(&mut self, f: &FailureRecord) -> Result<(), AllocError>
        ensures { OnOk result (self.new.text.items
            ≡ self.old.text.items ++ failure_line f.now) }
    {
        print(
            &mut self.text,
            "failure",
            &[
                Column::of(f.sequence),
                Column::of(f.picture),
                Column::of(f.bit),
                Column::Word(failure_word(f.kind)),
                Column::Number(f.time),
                Column::Number(f.have),
                Column::Number(f.need),
                Column::of(f.wait),
            ],
        )
    }

    /// The fault that ends the report of a sequence: its place, and the name of its kind.
    pub fn fault(&mut self, sequence: u64, bit: u64, kind: &str) -> Result<(), AllocError>
        ensures { OnOk result (self.new.text.items
            ≡ self.old.text.items ++ fault_line sequence bit kind.now) }
    {
        print(
            &mut self.text,
            "fault",
            &[Column::of(sequence), Column::of(bit), Column::Word(kind)],
        )
    }

    /// The limit that a sequence passes.
    pub fn limit(&mut self, sequence: u64, kind: LimitKind) -> Result<(), AllocError>
        ensures { OnOk result (self.new.text.items
            ≡ self.old.text.items ++ limit_line sequence kind) }
    {
        print(
            &mut self.text,
            "limit",
            &[Column::of(sequence), Column::Word(limit_word(kind))],
        )
    }

    /// How often a rule was told.
    pub fn count(&mut self, c: &CountRecord) -> Result<(), AllocError>
        ensures { OnOk result (self.new.text.items
            ≡ self.old.text.items ++ count_line c.now) }
    {
        print(
            &mut self.text,
            "count",
            &[
                Column::of(c.sequence),
                Column::of(u64::from(c.rule)),
                Column::of(c.how_often),
                Column::of(c.picture),
            ],
        )
    }

    /// What there was in a sequence.
    pub fn end(&mut self, e: &EndRecord) -> Result<(), AllocError>
        ensures { OnOk result (self.new.text.items
            ≡ self.old.text.items ++ end_line e.now) }
    {
        print(
            &mut self.text,
            "end",
            &[
                Column::of(e.sequence),
                Column::of(e.pictures),
                Column::of(e.frames),
                Column::of(e.groups),
                Column::of(e.bytes),
                Column::of(e.breaches),
                Column::of(e.failures),
                Column::of(e.warnings),
                Column::of(e.low),
                Column::of(e.high),
                Column::of(e.delays),
                Column::Number(e.time),
            ],
        )
    }

    /// What there was in the whole input.
    pub fn total(&mut self, t: &TotalRecord) -> Result<(), AllocError>
        ensures { OnOk result (self.new.text.items
            ≡ self.old.text.items ++ total_line t.now) }
    {
        print(
            &mut self.text,
            "total",
            &[
                Column::of(t.sequences),
                Column::of(t.pictures),
                Column::of(t.bytes),
                Column::of(t.breaches),
                Column::of(t.failures),
                Column::of(t.warnings),
            ],
        )
    }
}

/// The columns of a breach, and of a warning.
#[tactic(auto, unfolding(crate::specs::Lines::told))]
fn finding_columns(f: &Finding) -> [Column<'static>; 7]
    ensures { map told result ≡ finding_columns f.now }
{
    [
        Column::of(f.sequence),
        Column::of(f.picture),
        Column::of(f.bit),
        Column::of(u64::from(f.rule)),
        Column::Word(name_with(f.rule, f.element)),
        Column::Number(f.have),
        Column::Number(f.need),
    ]
}
