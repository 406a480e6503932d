//! Laws of disks, for those who build on them.

ghost use Rattle.std.specs.Prelude.{◌≢◌, ◌⊎◌, ℕ, Bool, List, Option, IsTrue};
ghost use Rattle.disk.specs.DiskSeen.{ChangesNothing, DiskFollows, IsDurable, OnlyLeaves, Passes, TakesStep};
ghost use Rattle.disk.specs.DiskCalls.{ChangesFile, CutShort, CutsShort, IsOutside, MayBeRenamed, TearsRange, Torn};
ghost use Rattle.outside.specs.World.{KeepsOthers, World};

use crate::Disk;

/// A file that stays is torn nowhere, and one that is torn twice is torn but for the places that stay both times.
pub fn tearing_goes_on()
    ensures none { (stays : ℕ → Bool) (file : Option (List ℕ)) → Torn (λ place. IsTrue (stays place)) file file }
    ensures on { (stays : ℕ → Bool) (old between new : Option (List ℕ))
        → Torn (λ place. IsTrue (stays place)) old between → Torn (λ place. IsTrue (stays place)) between new
        → Torn (λ place. IsTrue (stays place)) old new }
{}

/// A file that stays is cut short by nothing, and one that is cut short twice is cut short once.
pub fn cutting_goes_on()
    ensures none { (len : ℕ) (file : Option (List ℕ)) → CutShort len file file }
    ensures on { (len : ℕ) (old between new : Option (List ℕ)) → CutShort len old between → CutShort len between new
        → CutShort len old new }
{}

/// What a stop may leave along calls that tear a file but for the same places, or change nothing, is what it may leave
/// where the file is torn once; the same of calls that cut a file short.
pub fn changes_pass_on<D: Disk>()
    ensures torn { (stays : ℕ → Bool) (name : List ℕ) (old between new : D)
        → Passes (ChangesFile (Torn (λ place. IsTrue (stays place))) name) (D.seen old) (D.seen between)
        → Passes (ChangesFile (Torn (λ place. IsTrue (stays place))) name) (D.seen between) (D.seen new)
        → Passes (ChangesFile (Torn (λ place. IsTrue (stays place))) name) (D.seen old) (D.seen new) }
    ensures written { (stays : ℕ → Bool) (name : List ℕ) (at len : ℕ) (old new : D)
        → ((place : ℕ) → IsTrue (stays place) → IsOutside at len place)
        → TakesStep (TearsRange name at len) (D.seen old) (D.seen new)
        → Passes (ChangesFile (Torn (λ place. IsTrue (stays place))) name) (D.seen old) (D.seen new) }
    ensures torn_by_nothing { (stays : ℕ → Bool) (name : List ℕ) (old new : D)
        → ChangesNothing (D.seen old) (D.seen new)
        → Passes (ChangesFile (Torn (λ place. IsTrue (stays place))) name) (D.seen old) (D.seen new) }
    ensures cut { (name : List ℕ) (len : ℕ) (old between new : D)
        → Passes (CutsShort name len) (D.seen old) (D.seen between)
        → Passes (CutsShort name len) (D.seen between) (D.seen new)
        → Passes (CutsShort name len) (D.seen old) (D.seen new) }
    ensures cut_by_nothing { (name : List ℕ) (len : ℕ) (old new : D) → ChangesNothing (D.seen old) (D.seen new)
        → Passes (CutsShort name len) (D.seen old) (D.seen new) }
{}

/// Where only files with one property are left along some calls, and only files with another along those that follow,
/// only files with one of both are left along all of them.
pub fn what_is_left_adds_up<D: Disk>()
    ensures { (one two : World → Bool) (old between new : D)
        → OnlyLeaves (λ image. IsTrue (one image)) (D.seen old) (D.seen between)
        → OnlyLeaves (λ image. IsTrue (two image)) (D.seen between) (D.seen new)
        → OnlyLeaves (λ image. IsTrue (one image) ⊎ IsTrue (two image)) (D.seen old) (D.seen new) }
{}

/// A file that was synced is the same in whatever a stop may leave, as long as no call changes it.
pub fn a_synced_file_is_kept<D: Disk>()
    ensures others { (name other : List ℕ) (old new : D) → name ≢ other → IsDurable name (D.seen old)
        → DiskFollows (KeepsOthers other) (D.seen old) (D.seen new) → IsDurable name (D.seen new) }
    ensures renamed { (name from to : List ℕ) (old new : D) → name ≢ from → name ≢ to → IsDurable name (D.seen old)
        → DiskFollows (MayBeRenamed from to) (D.seen old) (D.seen new) → IsDurable name (D.seen new) }
    ensures nothing { (name : List ℕ) (old new : D) → IsDurable name (D.seen old)
        → ChangesNothing (D.seen old) (D.seen new) → IsDurable name (D.seen new) }
{}
