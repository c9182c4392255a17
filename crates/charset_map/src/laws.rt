//! A law of the definitions. The function does nothing: its contract is the law.
ghost use Rattle.std.specs.Prelude.{◌≡◌, ℕ, List, Option, true};
ghost use Rattle.std.specs.Char.{IsScalar};
ghost use Rattle.std.specs.List.{list_all};
ghost use Rattle.charset_map.specs.declared.fault.CharsetFault.{CharsetFault};
ghost use Rattle.charset_map.specs.Characters.{is_blank};
ghost use Rattle.charset_map.specs.TableText.{IsFirstFault, IsTableOf};

/// No text is two tables, or a table and faulty, or has two first faults. A text of blanks is no table.
pub fn a_text_is_read_in_one_way()
    ensures values { (text : List ℕ) (f g : ℕ → Option ℕ) (c : ℕ) → IsScalar c → IsTableOf text f → IsTableOf text g → f c ≡ g c }
    ensures fault { (text : List ℕ) (f g : CharsetFault) → IsFirstFault text f → IsFirstFault text g → f ≡ g }
    ensures either { (text : List ℕ) (table : ℕ → Option ℕ) (fault : CharsetFault) → IsTableOf text table → ¬ (IsFirstFault text fault) }
    ensures blank { (text : List ℕ) (table : ℕ → Option ℕ) → list_all is_blank text ≡ true → ¬ (IsTableOf text table) }
{}
