//! Theorems about positions, independent of any run.
ghost use Rattle.std.specs.Prelude.{◌≡◌, ℕ, List, encode_utf8_all, sum_by};
ghost use Rattle.kb_documents.specs.Columns.{column};
ghost use Rattle.kb_documents.specs.Document.{index_of, position_of};
ghost use Rattle.kb_documents.specs.Places.{code_units, IsPlace, IsPosition};
ghost use Rattle.kb_documents.specs.declared.encoding.Encoding.{Encoding};
ghost use Rattle.kb_documents.specs.declared.position.Position.{Position};

/// The column behind some characters is the number of their code units.
pub fn columns_count_code_units()
    ensures { (encoding : Encoding) (characters : List ℕ) →
        column encoding (encode_utf8_all characters) ≡ sum_by (code_units encoding) characters }
{}

/// The position of a character has the character's index.
pub fn indices_come_back()
    ensures { (encoding : Encoding) (text : List ℕ) (index : ℕ) → IsPlace text index →
        index_of encoding text (position_of encoding text index) ≡ index }
{}

/// The index of a character's position has that position.
pub fn positions_come_back()
    ensures { (encoding : Encoding) (text : List ℕ) (position : Position) →
        IsPosition encoding text position →
        position_of encoding text (index_of encoding text position) ≡ position }
{}
