//! Laws of the table and of reading.
ghost use Rattle.std.specs.Prelude.{◌≡◌, ◌≤◌, ◌↔◌, ◌++◌, ℕ, List, Ok, Err, Some, length, true, false};
ghost use Rattle.std.specs.List.{list_all};
ghost use Rattle.hsm_rows.specs.declared.row.Form.{Form};
ghost use Rattle.hsm_rows.specs.declared.row.Code.{Code};
ghost use Rattle.hsm_rows.specs.Forms.{size};
ghost use Rattle.hsm_rows.specs.Table.{RowShape, all_rows, row_A};
ghost use Rattle.hsm_rows.specs.Bounds.{has_few_fields, has_few_needs};
ghost use Rattle.hsm_rows.specs.Reading.{ReadText, reading, RowReads, RowRefuses, Stands, is_console};
ghost use Rattle.hsm_rows.specs.Standing.{TextsStand, AreTexts, AreTextsOrAbsent, IsText, MayFollow};
ghost use Rattle.hsm_rows.specs.ConsoleStanding.{AuthorisationStands};
ghost use Rattle.hsm_rows.specs.Clear.{OnlyNgAndGcShow, MarksAreShown, NgNeeds, GcNeeds};

/// Each text has by each row just one answer: one reading, or one code that refuses it.
pub fn one_reading()
    ensures read { (row : RowShape) (text : List ℕ) (r : ReadText) → (reading row text ≡ Ok r) ↔ RowReads row text r }
    ensures refused { (row : RowShape) (text : List ℕ) (code : Code) → (reading row text ≡ Err code) ↔ RowRefuses row text code }
{}

/// A text that stands is no longer than what is left.
pub fn sizes_fit()
    ensures { (f : Form) (earlier : List (List ℕ)) (rest : List ℕ) (n : ℕ) → size f earlier rest ≡ Some n → n ≤ length rest }
{}

/// Each text that a host row reads stands, before what follows it and given the texts of the earlier fields; so it is
/// what its field's form says. So is each text that a console row reads, but one that is left out.
pub fn texts_stand()
    ensures stand { (row : RowShape) (text : List ℕ) (r : ReadText) → is_console row ≡ false → reading row text ≡ Ok r → TextsStand row.fields r.texts }
    ensures are { (row : RowShape) (text : List ℕ) (r : ReadText) → is_console row ≡ false → reading row text ≡ Ok r → AreTexts row.fields r.texts }
    ensures console { (row : RowShape) (text : List ℕ) (r : ReadText) → is_console row ≡ true → reading row text ≡ Ok r → AreTextsOrAbsent row.fields r.texts }
{}

/// A text of a form stands just where it is what the form says, before what may follow it; so no other text of the form
/// stands there.
pub fn forms_are()
    ensures stand { (f : Form) (e : List (List ℕ)) (t rest : List ℕ) → Stands f e (t ++ rest) (length t) ↔ (IsText f e t × MayFollow f e t rest) }
    ensures one { (f : Form) (e : List (List ℕ)) (t u rest more : List ℕ) → t ++ rest ≡ u ++ more → IsText f e t → MayFollow f e t rest → IsText f e u → MayFollow f e u more → t ≡ u }
{}

/// What the texts of an authorisation are, where its row read them.
pub fn console_texts_stand()
    ensures authorisation { (text : List ℕ) (r : ReadText) → reading row_A text ≡ Ok r → AuthorisationStands r }
{}

/// No row but NG and GC has a reply field that shows a clear key or PIN; these two need an activity.
pub fn clear_marks()
    ensures only { OnlyNgAndGcShow }
    ensures marks { MarksAreShown }
    ensures pin { NgNeeds }
    ensures component { GcNeeds }
{}

/// No row has more than 12 fields or more than two needs.
pub fn few_fields_and_needs()
    ensures fields { list_all has_few_fields all_rows ≡ true }
    ensures needs { list_all has_few_needs all_rows ≡ true }
{}
