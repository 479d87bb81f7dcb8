//! What the forms of this crate promise of one another.

ghost use Rattle.std.specs.Prelude.{◌≡◌, ◌≢◌, ◌↔◌, ℕ, ◌^◌, ◌<◌, List, ◌∷◌, length, Some, All};
ghost use Rattle.std.specs.List.{concat};
ghost use Rattle.std.specs.Fmt.{decimal};
ghost use Rattle.ppp_text.specs.Fields.{fields_of, line_with};
ghost use Rattle.ppp_text.specs.Lines.{pieces_of};
ghost use Rattle.ppp_text.specs.Numbers.{number_of};

/// Does nothing. Its clauses are laws: a text is its lines with their ends, one behind the other, a line is its fields
/// with one space between them, fields without a space are read again from such a line, and a field is a number exactly
/// where it is what that number prints as.
pub fn read_again()
    ensures lines { (text : List ℕ) → concat (pieces_of text) ≡ text }
    ensures line { (line : List ℕ) → line_with (fields_of line) ≡ line }
    ensures fields { (field : List ℕ) (more : List (List ℕ)) →
        All (λ part. All (λ x. x ≢ 32) part) (field ∷ more) →
        fields_of (line_with (field ∷ more)) ≡ field ∷ more }
    ensures number { (field : List ℕ) (n : ℕ) → n < 2 ^ 64 →
        (number_of field ≡ Some n) ↔ (field ≡ decimal n) }
{}
