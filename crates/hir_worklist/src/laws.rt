//! What each call keeps. The functions do nothing: their contracts are the laws.
ghost use Rattle.hir_worklist.specs.Settling.{AppendingKeepsWatched, ChangesKeepWatched, FinishingKeepsWatched, PassesKeepWatched, TakingKeepsWatched, TriedAreWatched, WatchingKeepsWatched, WhatIsIdleDoesNotRead};

/// Each idle thing watches each slot that it reads, but one that is being tried: whatever is called, this stays so.
pub fn calls_keep_watched<K: Ord>()
    ensures appended { AppendingKeepsWatched K.cmp }
    ensures passes { PassesKeepWatched K.cmp }
    ensures taken { TakingKeepsWatched K.cmp }
    ensures watching { WatchingKeepsWatched K.cmp }
    ensures tried { TriedAreWatched K.cmp }
    ensures finished { FinishingKeepsWatched K.cmp }
{}

/// When a slot changes and all that watch it are woken, what is idle has not read it, and watches all that it has read.
pub fn changes_wake_readers<K: Ord>()
    ensures unread { WhatIsIdleDoesNotRead K.cmp }
    ensures watched { ChangesKeepWatched K.cmp }
{}
