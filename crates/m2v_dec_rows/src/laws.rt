//! What holds of a picture that is read row by row.
//! What holds of a piece that is read in two halves.
ghost use Rattle.std.specs.Prelude.{ℕ, ◌<◌, ◌≡◌, false, List, All};
ghost use Rattle.m2v_model.specs.declared.setup.SliceSetup.{SliceSetup};
ghost use Rattle.m2v_model.specs.Samples.{References};
ghost use Rattle.m2v_dec_picture.specs.Conditions.{IsSetup, rows_in};
ghost use Rattle.m2v_dec_rows.specs.Rows.{Slices};
ghost use Rattle.m2v_dec_rows.specs.ByRows.{AreOrdered, ByRows};
ghost use Rattle.m2v_dec_rows.specs.InFrames.{RowInFrame, RowsInFrame};
ghost use Rattle.m2v_model.specs.Units.{cut};
ghost use Rattle.m2v_model.specs.Pieces.{pieces};
ghost use Rattle.m2v_model.specs.ByPieces.{Between};
ghost use Rattle.m2v_dec_piece.specs.declared.answer.Piece.{Piece};
ghost use Rattle.m2v_dec_rows.specs.Opened.{whole_of};
ghost use Rattle.m2v_dec_rows.specs.Headers.{Front, IsBetween};
ghost use Rattle.m2v_dec_rows.specs.OnePicture.{HasOnePicture};
ghost use Rattle.m2v_dec_rows.specs.Halves.{Halves};

/// The slices of a picture that are read one behind another have no fault and leave no macroblock out, where each row that
/// is read by itself has no fault; and else their first fault is that of the first row that has one.
pub fn law_by_rows()
    ensures { (s : SliceSetup) (us : Slices) (end : ℕ) → IsSetup s → AreOrdered 0 (rows_in s) us
        → ByRows s (rows_in s) us end }
{}

/// The samples of a row that is read by itself, whatever they were before, are those that its slices give a frame, where
/// they cover the row: set into the frame, of a field picture as the row of its field, they make it the same.
pub fn law_row_in_frame()
    ensures { (s : SliceSetup) (refs : References) (row : ℕ) (us : Slices) → IsSetup s
        → row < rows_in s → RowInFrame s refs row us }
{}

/// The rows of a picture without a fault, each read by itself, whatever its samples were before, and set into a frame one
/// after another, of a field picture as rows of its field, make it the frame with all slices of the picture painted.
pub fn law_rows_in_frame()
    ensures { (s : SliceSetup) (refs : References) (us : Slices) (end : ℕ) → IsSetup s
        → AreOrdered 0 (rows_in s) us → RowsInFrame s refs us end }
{}

/// In a piece of a text no unit behind a picture begins a piece: so it has one picture at most.
pub fn law_one_picture()
    ensures { (text : List ℕ) → All (λ piece. HasOnePicture (cut 0 piece).1) (pieces text) }
{}

/// A piece that is read in two halves, its headers with slices unread and then its macroblock rows, each by itself, tells
/// what it tells when it is read as a whole: the same parts where no slice is read; else the fault of the first row with
/// one, or that of the headers, or the picture, painted with its slices.
pub fn law_halves()
    ensures { (b : Between) (p : Piece) (f : Front b.state p) → b.state.headers_only ≡ false
        → IsBetween b.state → HasOnePicture (cut 0 (whole_of p)).1 → Halves b p f }
{}
