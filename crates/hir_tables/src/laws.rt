//! What holds of tables that grow. The functions do nothing: their contracts are the laws.
ghost use Rattle.hir_tables.specs.Laws.{GrowthKeepsSources, GrowthIsTransitive, NoGrowthIsGrowth};

/// What a number means, and where a tree's source stands, stays as tables grow.
pub fn growth_changes_no_meaning()
    ensures sources { GrowthKeepsSources }
    ensures none { NoGrowthIsGrowth }
    ensures in_steps { GrowthIsTransitive }
{}
