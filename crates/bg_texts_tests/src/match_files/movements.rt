//! Movements as other programs write them.
use super::records::check_one_point;

static MERGED: [(&str, &str); 5] = [
    (
        "  1) 64: 24/14\n",
        "length 1\nopen 6 4\nX move 24-20 20-14\n",
    ),
    (
        "  1) 64: 24/18/14\n",
        "length 1\nopen 6 4\nX move 24-18 18-14\n",
    ),
    (
        "  1) 64: 24/20/14\n",
        "length 1\nopen 6 4\nX move 24-20 20-14\n",
    ),
    (
        "  1) 64: 24/20 20/14\n",
        "length 1\nopen 6 4\nX move 24-20 20-14\n",
    ),
    (
        "  1) 64: 24/18 18/14\n",
        "length 1\nopen 6 4\nX move 24-18 18-14\n",
    ),
];

/// A way of one checker by several dice is cut into steps.
#[test]
fn merged_steps(rt: HostRuntime) {
    for (rows, transcript) in &MERGED {
        check_one_point(&rt, rt.alloc(), rows, transcript);
    }
}

/// Several checkers on the same way, hits, and the bar.
const ROWS: &str = "  1) 31: 24/23 13/10          65: 8/2* 6/1*
  2) 21: bar/23* Bar/24*       33: bar/22(2) 24/21(2)
";

const TRANSCRIPT: &str = "length 1
open 3 1
X move 24-23 13-10
O roll 6 5
O move 8-2 6-1
X roll 2 1
X move bar-23 bar-24
O roll 3 3
O move bar-22 bar-22 24-21 24-21
";

#[test]
fn counts_hits_and_the_bar(rt: HostRuntime) {
    check_one_point(&rt, rt.alloc(), ROWS, TRANSCRIPT);
}
