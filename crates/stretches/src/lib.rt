// The annex's table for portable signals (annex, part B, 2; document 02, 2026-07).
#![tactic(auto)]

ghost use Rattle.std.specs.Prelude.{true, ◌≡◌, ◌<◌};
ghost use Rattle.stretches.specs.Table.{listed as is_listed, entry as entry_of, table_times};

// The table's t and L for a stretch and a speed, in tenths of a second.
#[derive(Clone, Copy, Debug, PartialEq, Eq)]
pub struct TableTimes {
    pub clearing: u16,
    pub lost: u16,
}

// A row for each stretch, 10 to 300 m by tens: t at 25, 30, 35 and 40 km/h, then L at these.
const TABLE: [[u16; 8]; 30] = [
    [43, 36, 31, 27, 126, 112, 102, 94],
    [58, 48, 41, 36, 155, 136, 122, 112],
    [72, 60, 51, 45, 184, 160, 143, 130],
    [86, 72, 62, 54, 213, 184, 163, 148],
    [101, 84, 72, 63, 242, 208, 184, 166],
    [115, 96, 82, 72, 270, 232, 205, 184],
    [130, 108, 93, 81, 299, 256, 225, 202],
    [144, 120, 103, 90, 328, 280, 246, 220],
    [158, 132, 113, 99, 357, 304, 266, 238],
    [173, 144, 123, 108, 386, 328, 287, 256],
    [187, 156, 134, 117, 414, 352, 307, 274],
    [202, 168, 144, 126, 443, 376, 328, 292],
    [216, 180, 154, 135, 472, 400, 349, 310],
    [230, 192, 165, 144, 501, 424, 369, 328],
    [245, 204, 175, 153, 530, 448, 390, 346],
    [259, 216, 185, 162, 558, 472, 410, 364],
    [274, 228, 195, 171, 587, 496, 431, 382],
    [288, 240, 206, 180, 616, 520, 451, 400],
    [302, 252, 216, 189, 645, 544, 472, 418],
    [317, 264, 226, 198, 674, 568, 493, 436],
    [331, 276, 237, 207, 702, 592, 513, 454],
    [346, 288, 247, 216, 731, 616, 534, 472],
    [360, 300, 257, 225, 760, 640, 554, 490],
    [374, 312, 267, 234, 789, 664, 575, 508],
    [389, 324, 278, 243, 818, 688, 595, 526],
    [403, 336, 288, 252, 846, 712, 616, 544],
    [418, 348, 298, 261, 875, 736, 637, 562],
    [432, 360, 309, 270, 904, 760, 657, 580],
    [446, 372, 319, 279, 933, 784, 678, 598],
    [461, 384, 329, 288, 962, 808, 698, 616],
];

// Whether the table has a stretch in metres and a speed in km/h.
#[tactic(auto, unfolding(crate::specs::Table::listed, crate::specs::Table::by_steps))]
pub fn listed(stretch: usize, speed: usize) -> bool
    ensures { result ≡ is_listed stretch speed }
{
    let stretches = (10..=300).contains(&stretch) & (stretch % 10 == 0);
    let speeds = (25..=40).contains(&speed) & (speed % 5 == 0);
    stretches & speeds
}

// What the table has for them.
#[tactic(auto, using(crate::specs::Listed::placed))]
pub fn times(stretch: usize, speed: usize) -> TableTimes
    requires { is_listed stretch speed ≡ true }
    ensures { result ≡ table_times stretch speed }
{
    let row = stretch / 10 - 1;
    let column = speed / 5 - 5;
    TableTimes {
        clearing: entry(row, column),
        lost: entry(row, column + 4),
    }
}

// The number in a row and a column, from 0.
#[tactic(auto, unfolding(crate::specs::Table::entry, crate::specs::Table::table))]
fn entry(row: usize, column: usize) -> u16
    requires row { row < 30 }
    requires column { column < 8 }
    ensures { result ≡ entry_of row column }
{
    TABLE[row][column]
}
