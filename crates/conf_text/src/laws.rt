//! Laws of the definitions. Each function does nothing: its contract is the law.
ghost use Rattle.std.specs.Prelude.{◌≡◌, ℕ, List};
ghost use Rattle.std.specs.List.{AllZip};
ghost use Rattle.index_conf.specs.declared.conf.Conf.{Conf};
ghost use Rattle.conf_text.specs.declared.fault.ConfFault.{ConfFault};
ghost use Rattle.conf_text.specs.Confs.{AreSameIndex, IsConfOf, IsFaultOf};

/// No text is two configurations, or a configuration and faulty, or has two first faults. Two configurations of one text may
/// differ only in how they keep their character tables.
pub fn a_text_is_one_configuration()
    ensures values { (text : List ℕ) (a b : Conf) → IsConfOf text a → IsConfOf text b → AllZip AreSameIndex a.indexes b.indexes }
    ensures fault { (text : List ℕ) (f g : ConfFault) → IsFaultOf text f → IsFaultOf text g → f ≡ g }
    ensures either { (text : List ℕ) (conf : Conf) (fault : ConfFault) → IsConfOf text conf → ¬ (IsFaultOf text fault) }
{
    charset_map::a_text_is_read_in_one_way();
}
