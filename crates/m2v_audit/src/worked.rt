//! Worked lines, and a worked report.
ghost use Rattle.std.specs.Prelude.{◌≡◌, ◌++◌, codes};
ghost use Rattle.m2v_audit.specs.Lines.{sequence_line, group_line, breach_line, warning_line, failure_line, end_line, columns_lines, audit_line};
ghost use Rattle.m2v_audit.specs.Worked.{television, third, too_wide, no_hour, too_high, too_late, ended, worked_report};

/// The lines of some records, written out.
pub fn law_lines_worked()
    ensures audit { audit_line (codes "main") ≡ codes "audit\t1\tmain\n" }
    ensures sequence { sequence_line television
        ≡ codes "sequence\t0\t32\t720\t576\t3\t2\t72\t0\t1\t15000\t112\tvariable\n" }
    ensures group { group_line third ≡ codes "group\t0\t2\t976\t24\t0\t1\t2\t3\t4\t1\t0\n" }
    ensures breach { breach_line too_wide ≡ codes "breach\t0\t3\t12345\t2\twidth\t721\t720\n" }
    ensures element { breach_line no_hour
        ≡ codes "breach\t0\t3\t12345\t24\ttime_code_hours\t24\t23\n" }
    ensures warning { warning_line too_high
        ≡ codes "warning\t0\t0\t96\t52\theight\t1152\t1088\n" }
    ensures failure { failure_line too_late
        ≡ codes "failure\t1\t10\t80000\tunder\t288000\t1800\t3600\t12\n" }
    ensures end { end_line ended ≡ codes "end\t2\t10\t9\t1\t64000\t0\t0\t0\t4\t700\t1\t259200\n" }
{}

/// The report of some calls, written out: a breach, a warning, a removal of a picture that comes late, and the end.
pub fn law_report_worked()
    ensures { worked_report.text ≡ codes "breach\t2\t3\t12345\t11\ttemporal_reference\t7\t5\n"
        ++ codes "warning\t2\t4\t19000\t56\tbroken_link\t1\t0\n"
        ++ codes "held\t2\t4\t115200\t5\t6\t0\t701\t12\n"
        ++ codes "failure\t2\t4\t20000\tunder\t115200\t9000\t10800\t12\n"
        ++ codes "count\t2\t11\t1\t3\n" ++ codes "count\t2\t56\t1\t4\n"
        ++ codes "end\t2\t5\t4\t1\t64000\t1\t1\t1\t0\t5\t1\t115200\n" }
{}
