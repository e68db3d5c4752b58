//! The law that the settings of a tree are valid.
ghost use Rattle.std.specs.Prelude.{List, IfOk};
ghost use Rattle.qn_conf.specs.declared.tree.Item.{Item};
ghost use Rattle.qn_model.specs.Settings.{IsValid};
ghost use Rattle.qn_settings.specs.Answer.{answer_of};

/// Where a tree gives settings, they are valid.
pub fn law_valid_settings()
    ensures { (tree : List Item) → IfOk (answer_of tree) IsValid }
{}
