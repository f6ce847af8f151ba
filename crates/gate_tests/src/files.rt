// Policy files, accepted and refused.

// Six lines. A grower is permitted, and the valve is to be noted.
pub const GROWER: &[u8] = b"kind a b c d e\n\
      attr sub/role - - - -\n\
      text grower - - - -\n\
      equal 1 2 - - -\n\
      attr res/valve - - - -\n\
      must 1 4 - - -\n\
      permit 3 5 - - -\n";

// The same, but that its action is none: line 5, field 2.
pub const NO_ACTION: &[u8] = b"kind a b c d e\n\
      attr sub/role - - - -\n\
      text grower - - - -\n\
      equal 1 2 - - -\n\
      attr res/valve - - - -\n\
      must 16 4 - - -\n\
      permit 3 5 - - -\n";

// Four lines. A grower is denied.
pub const NO_GROWER: &[u8] = b"kind a b c d e\n\
      attr sub/role - - - -\n\
      text grower - - - -\n\
      equal 1 2 - - -\n\
      deny 3 - - - -\n";

// Eight lines. Above 30 is permitted: the second valve is to be moved, and that may be noted.
pub const COOLING: &[u8] = b"kind a b c d e\n\
      attr env/air - - - -\n\
      num 30 - - - -\n\
      greater 1 2 - - -\n\
      attr env/opening - - - -\n\
      must 9 4 - - -\n\
      text hot - - - -\n\
      may 0 6 5 - -\n\
      permit 3 7 - - -\n";

// Nine lines. The same at 30 and below.
pub const WARMING: &[u8] = b"kind a b c d e\n\
      attr env/air - - - -\n\
      num 30 - - - -\n\
      greater 1 2 - - -\n\
      attr env/opening - - - -\n\
      must 9 4 - - -\n\
      text cool - - - -\n\
      may 0 6 5 - -\n\
      not 3 - - - -\n\
      permit 8 7 - - -\n";

// Six lines. Below 20 is denied, and the first valve is to be shut.
pub const TANK: &[u8] = b"kind a b c d e\n\
      num 20 - - - -\n\
      attr env/tank - - - -\n\
      greater 1 2 - - -\n\
      num 0 - - - -\n\
      must 8 4 - - -\n\
      deny 3 5 - - -\n";

// Fourteen lines. The set permits with its first child, whose duty is the journal's.
// Where it visits the second too, that adds a duty of the second valve. Its own duty comes last.
pub const GREEDY: &[u8] = b"kind a b c d e\n\
      text first - - - -\n\
      must 1 1 - - -\n\
      true - - - - -\n\
      permit 3 2 - - -\n\
      item 4 - - - -\n\
      num 50 - - - -\n\
      must 9 6 - - -\n\
      true - - - - -\n\
      permit 8 7 - - -\n\
      item 9 5 - - -\n\
      attr res/valve - - - -\n\
      may 0 11 - - -\n\
      attr sub/wants - - - -\n\
      set p-over.greedy 13 10 12 -\n";

// The same with all children visited.
pub const ALL: &[u8] = b"kind a b c d e\n\
      text first - - - -\n\
      must 1 1 - - -\n\
      true - - - - -\n\
      permit 3 2 - - -\n\
      item 4 - - - -\n\
      num 50 - - - -\n\
      must 9 6 - - -\n\
      true - - - - -\n\
      permit 8 7 - - -\n\
      item 9 5 - - -\n\
      attr res/valve - - - -\n\
      may 0 11 - - -\n\
      attr sub/wants - - - -\n\
      set p-over.all 13 10 12 -\n";

// No line follows line 0.
pub const NO_LINES: &[u8] = b"kind a b c d e\n";

// The number in line 2, field 2 has zeros in front.
pub const MISSPELT: &[u8] = b"kind a b c d e\n\
      attr env/air - - - -\n\
      num 007 - - - -\n\
      greater 1 2 - - -\n\
      permit 3 - - - -\n";

// Line 4 names line 2 in field 2, which line 3 did.
pub const NAMED_TWICE: &[u8] = b"kind a b c d e\n\
      true - - - - -\n\
      permit 1 - - - -\n\
      item 2 - - - -\n\
      item 2 3 - - -\n\
      true - - - - -\n\
      set d-over.greedy 5 4 - -\n";
