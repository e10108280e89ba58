//! Whole games of 38 entries, which X wins by bearing off.

/// O has borne off ten checkers.
pub(super) const SINGLE_GAME: &str = "\
open 6 5
X move 13-7 8-3
O roll 6 6
O move 8-2 13-7 13-7 13-7
X roll 6 6
X move 13-7 13-7 13-7 13-7
O roll 6 6
O move 13-7 8-2 13-7 8-2
X roll 5 5
X move 8-3 7-2 7-2 8-3
O roll 5 5
O move 7-2 7-2 7-2 7-2
X roll 4 4
X move 6-2 24-20 24-20 7-3
O roll 5 5
O move 6-1 6-1 7-2 6-1
X roll 6 6
X move 20-14 14-8 20-14 14-8
O roll 4 4
O move 6-2 24-20 24-20 6-2
X roll 6 6
X move 7-1 8-2 7-1 8-2
O roll 6 6
O move 20-14 20-14 14-8 14-8
X roll 6 6
X move 6-off 6-off 6-off 6-off
O roll 5 5
O move 8-3 8-3 3-off 3-off
X roll 6 6
X move 3-off 3-off 3-off 3-off
O roll 4 4
O move 2-off 2-off 2-off 2-off
X roll 6 6
X move 2-off 2-off 2-off 2-off
O roll 4 4
O move 2-off 2-off 2-off 2-off
X roll 5 5
X move 2-off 1-off 1-off
";

/// O has borne off none, and left the home board of X.
pub(super) const GAMMON: &str = "\
open 6 5
X move 24-18 18-13
O roll 3 1
O move 24-21 24-23
X roll 6 6
X move 24-18 13-7 13-7 13-7
O roll 1 2
O move 6-4 21-20
X roll 5 5
X move 13-8 8-3 18-13 8-3
O roll 1 2
O move 13-11 8-7
X roll 6 6
X move 13-7 7-1 13-7 7-1
O roll 2 1
O move 8-7 7-5
X roll 6 6
X move 7-1 7-1 7-1 13-7
O roll 2 3
O move 4-2 11-8
X roll 5 5
X move 6-1 8-3 8-3 6-1
O roll 2 3
O move 5-3 20-17
X roll 6 6
X move 7-1 6-off 6-off 6-off
O roll 2 1
O move 13-11 6-5
X roll 5 5
X move 3-off 3-off 3-off 3-off
O roll 2 3
O move 23-21 21-18
X roll 5 5
X move 1-off 1-off 1-off 1-off
O roll 1 2
O move 13-12 12-10
X roll 3 3
X move 1-off 1-off 1-off 1-off
";

/// O has borne off none, and has two checkers in the home board of X.
pub(super) const BACKGAMMON: &str = "\
open 6 5
X move 24-18 18-13
O roll 3 1
O move 24-21 24-23
X roll 6 6
X move 24-18 13-7 13-7 13-7
O roll 1 2
O move 6-4 21-20
X roll 5 5
X move 13-8 8-3 18-13 8-3
O roll 1 2
O move 13-11 8-7
X roll 6 6
X move 13-7 7-1 13-7 7-1
O roll 2 1
O move 8-7 7-5
X roll 6 6
X move 7-1 7-1 7-1 13-7
O roll 2 3
O move 4-2 11-8
X roll 5 5
X move 6-1 8-3 8-3 6-1
O roll 2 3
O move 6-3 13-11
X roll 6 6
X move 7-1 6-off 6-off 6-off
O roll 2 1
O move 13-12 5-3
X roll 5 5
X move 3-off 3-off 3-off 3-off
O roll 2 3
O move 8-5 13-11
X roll 3 3
X move 1-off 1-off 1-off 1-off
O roll 1 2
O move 6-5 7-5
X roll 5 5
X move 1-off 1-off 1-off 1-off
";
