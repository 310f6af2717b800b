//! What happens between two rounds. The functions do nothing: their contracts are the laws.
ghost use Rattle.hir_import_growth.specs.Growth.{EnumsGrowAround, GrowthKeepsGlobs, ListsGrowAround, MacroUsesGrowAround, ModulesGrowAround, PushesBind, PushesKeepGlobs, ScopesGrowAround};
ghost use Rattle.hir_import_resolution.specs.Rounds.{RestingGlobsLast};
ghost use Rattle.hir_import_resolution.specs.Sound.{GrowthKeepsSound, LocalKeepsSound, PushesKeepSound, ReachedImportsKeepSound, StepsKeepSound};

/// What is known of globs when imports rest stays true while their map grows: modules and enums may come, and names may be
/// bound.
pub fn rounds_keep_globs()
    ensures resting { RestingGlobsLast }
    ensures growth { GrowthKeepsGlobs }
    ensures pushes { PushesKeepGlobs }
{}

/// What building adds without a push lets a map grow around its names.
pub fn building_grows_around()
    ensures made { ModulesGrowAround }
    ensures listed { ListsGrowAround }
    ensures enums { EnumsGrowAround }
    ensures scopes { ScopesGrowAround }
    ensures macro_uses { MacroUsesGrowAround }
{}

/// What is pushed to a name of a module is bound there explicitly.
pub fn pushes_bind()
    ensures bind { PushesBind }
{}

/// What holds of imports and globs wherever steps lead holds after one more step.
pub fn steps_keep_sound()
    ensures steps { StepsKeepSound }
{}

/// It holds after what may happen to imports between two rounds.
pub fn rounds_keep_sound()
    ensures growth { GrowthKeepsSound }
    ensures pushes { PushesKeepSound }
    ensures reached { ReachedImportsKeepSound }
    ensures local { LocalKeepsSound }
{}
