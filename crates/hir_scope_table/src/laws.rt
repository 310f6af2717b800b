//! Laws of pushes. The functions do nothing: their contracts are the laws.
ghost use Rattle.hir_scope_table.specs.Laws.{ExplicitPrevails, LastRecordStays};

/// A slot holds what prevails among the pushes since it was last updated or emptied, and what stood there then.
pub fn explicit_prevails<Def: Eq, Vis, Import: Eq>()
    ensures law { ExplicitPrevails Vis Def.eq Import.eq }
{}

/// The record of an import is what it reached at the last push that it made and that changed its name.
pub fn last_record_stays<Def, Vis, Import: Ord, Target>()
    ensures law { LastRecordStays Def Vis Target Import.cmp }
{}
