//! What a sequence that is audited counts, and what is told of a worked one.
ghost use Rattle.std.specs.Prelude.{◌≡◌, ℕ, ◌+◌, ◌++◌, List, length, codes};
ghost use Rattle.m2v_model.specs.PieceNotes.{PieceNotes};
ghost use Rattle.m2v_audit.specs.Auditing.{Auditing, after_piece};
ghost use Rattle.m2v_audit.specs.WorkedAuditing.{begun, over};

/// A piece adds its bytes, whatever is noted of it.
#[tactic(auto, using(crate::proofs::Counted::bytes_after))]
pub fn law_bytes_counted()
    ensures { (a : Auditing) (place : ℕ) (piece : List ℕ) (notes : PieceNotes)
        → (after_piece a place piece notes).bytes ≡ a.bytes + length piece }
{}

/// All that is told of a worked sequence, written out: what comes with its first piece, and what comes till its end.
pub fn law_auditing_worked()
    ensures begun { begun.report.text ≡ codes "skipped\t0\t90\t10\n"
        ++ codes "sequence\t0\t800\t720\t576\t3\t2\t72\t0\t0\t15000\t112\tvariable\n"
        ++ codes "group\t0\t0\t976\t0\t0\t1\t2\t3\t4\t1\t0\n"
        ++ codes "picture\t0\t0\t1040\tI\tframe\t2\t320\t16\t65535\t3\t0\n"
        ++ codes "breach\t0\t0\t1040\t15\tintra_dc_precision\t3\t2\n"
        ++ codes "breach\t0\t0\t1040\t34\tframe_pred_frame_dct\t0\t1\n" }
    ensures over { over.report.text ≡ begun.report.text
        ++ codes "breach\t0\t0\t1040\t11\ttemporal_reference\t2\t0\n"
        ++ codes "held\t0\t0\t0\t352\t352\t0\t65535\t0\n"
        ++ codes "count\t0\t11\t1\t0\n" ++ codes "count\t0\t15\t1\t0\n"
        ++ codes "count\t0\t34\t1\t0\n"
        ++ codes "end\t0\t1\t1\t1\t44\t3\t0\t0\t0\t352\t0\t0\n" }
{}
