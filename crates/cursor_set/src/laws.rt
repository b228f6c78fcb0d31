//! What holds of all cursors by their rules, each the contract of a function that does nothing.
ghost use Rattle.std.specs.Prelude.{◌≡◌, false, true, None, Some};
ghost use Rattle.cursor_set.specs.Cursors.{may_advance};
ghost use Rattle.cursor_set.specs.Laws.{CursorsApart, CursorsMove, LeastOfAll};

/// No call moves another cursor.
pub fn cursors_are_apart()
    ensures { CursorsApart }
{}

/// Where a cursor stands after each call. None goes back, unless it is put there.
pub fn cursors_go_on()
    ensures { CursorsMove }
{}

/// A cursor that is sent where it stands, or beyond, may go; one that is sent below, or is not there,
/// may not.
pub fn cursors_may_go()
    ensures there { (may_advance (Some 5) 5 ≡ true) × (may_advance (Some 0) 0 ≡ true) }
    ensures beyond { (may_advance (Some 5) 6 ≡ true) × (may_advance (Some 0) 281474976710656 ≡ true) }
    ensures below { (may_advance (Some 5) 4 ≡ false) × (may_advance (Some 1) 0 ≡ false) }
    ensures absent { (may_advance None 0 ≡ false) × (may_advance None 5 ≡ false) }
{}

/// Which number is the least of one and all places.
pub fn least_is_exact()
    ensures { LeastOfAll }
{}
