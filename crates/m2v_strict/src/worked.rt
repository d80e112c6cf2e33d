//! What the stricter rules remark of worked headers.
ghost use Rattle.std.specs.Prelude.{◌≡◌, ◌++◌, ◌∷◌, [], true, false};
ghost use Rattle.m2v_strict.specs.declared.element.Element.TheVariants as elements;
ghost use Rattle.m2v_strict.specs.declared.rule_set.RuleSet.TheVariants as sets;
ghost use Rattle.m2v_strict.specs.Remarks.{remark};
ghost use Rattle.m2v_strict.specs.SequenceRules.{level_remarks, header_rule, extension_rule, sequence_warnings};
ghost use Rattle.m2v_strict.specs.GroupRules.{group_remarks};
ghost use Rattle.m2v_strict.specs.PictureRules.{delay_remarks, f_code_rule, full_pel_rule, field_rule, frame_remarks, picture_warnings};
ghost use Rattle.m2v_strict.specs.Worked.{television, changed, passed_over, tenth, frame, field};

/// Of a sequence header: 512 coded lines of 704 at 29.97 Hz are more luma samples than Main level has in a second, though 484
/// are not; a later header with another rate and delay; and no warning.
pub fn law_sequence_worked()
    ensures rate { level_remarks television
        ≡ remark 16 elements.CodedLumaRate 259522560000 249080832000 ∷ [] }
    ensures same { header_rule television television ≡ [] }
    ensures header { header_rule television changed ≡ remark 21 elements.BitRate 10000 15000 ∷ [] }
    ensures extension { extension_rule television changed ≡ remark 21 elements.LowDelay 1 0 ∷ [] }
    ensures warnings { sequence_warnings sets.Main television ≡ [] }
{}

/// Of a group header: with drop_frame_flag there is no picture 1 in 00:01:00, but there is one in 00:10:00; and at 25 Hz
/// nothing is passed over.
pub fn law_group_worked()
    ensures passed { group_remarks 4 passed_over
        ≡ remark 26 elements.TimeCodePictures 1 2 ∷ [] }
    ensures tenth { group_remarks 4 tenth ≡ [] }
    ensures rate { group_remarks 3 tenth ≡ remark 25 elements.DropFrameFlag 1 0 ∷ [] }
{}

/// Of an I frame and of a P field, rule by rule.
pub fn law_picture_worked()
    ensures delays { delay_remarks true frame ≡ [] }
    ensures unused { f_code_rule frame ≡ remark 30 elements.FCodeVertical 3 15 ∷ [] }
    ensures frame { frame_remarks true frame
        ≡ remark 34 elements.FramePredFrameDct 0 1 ∷ remark 38 elements.Chroma420Type 0 1 ∷ [] }
    ensures varying { delay_remarks true field ≡ remark 28 elements.VbvDelay 65535 65534 ∷ [] }
    ensures vectors { full_pel_rule field.note.info
        ≡ remark 31 elements.FullPelForwardVector 1 0 ∷ [] }
    ensures field { field_rule true field
        ≡ remark 33 elements.TopFieldFirst 1 0 ∷ remark 33 elements.ProgressiveFrame 1 0 ∷ [] }
    ensures warnings { picture_warnings field ≡ [] }
{}
