// The table of ties as the code holds it: a block a layout, a line a column that can carry a tie; `tools/rows ties` prints it from
// the specification's table, and the check compares the two.
ghost use Rattle.std.specs.Prelude.{◌≡◌};
ghost use Rattle.tie_rules.specs.packed.Rows.{tie_row, part_at};

// Row 0 is 1 where a layout's code has a vessel digit. Those behind it are a column each, from left to right, all hexadecimal, so
// that a part is taken out as it is: what the column states (1 the card's own vessel, 2 a count), the line of its reference, the
// line of its definition, the column. A line: the class, how the key is found (`keys` names the ways), the key's first and last
// column; all zeros where the column refers to nothing, or defines nothing. The answer is 0 where there is no row with the number.
pub fn tie_of(layout: usize, slot: usize) -> u64
    ensures { result ≡ tie_row layout slot }
{
    match layout {
        0 => 0,
        1 => 0,
        2 => 0,
        3 => 0,
        4 => 0,
        5 => 0,
        6 => 0,
        7 => 0,
        8 => match slot {
            0 => 1, // H00#8
            1 => 0x1_0_0_00_00_6_2_1e_1e_1e,
            2 => 0x2_0_0_00_00_0_0_00_00_4f,
            _ => 0,
        },
        9 => match slot {
            0 => 1, // H00#9
            1 => 0x1_6_2_07_07_0_0_00_00_07,
            2 => 0x0_0_0_00_00_7_4_09_0b_09,
            3 => 0x0_0_0_00_00_7_4_27_29_27,
            _ => 0,
        },
        10 => 0,
        11 => 0,
        12 => match slot {
            0 => 0, // H0100
            1 => 0x0_0_0_00_00_9_5_00_00_07,
            2 => 0x2_0_0_00_00_0_0_00_00_10,
            _ => 0,
        },
        13 => match slot {
            0 => 0, // H0101
            1 => 0x0_9_5_00_00_8_2_07_0a_07,
            _ => 0,
        },
        14 => match slot {
            0 => 0, // H011@
            1 => 0x0_0_0_00_00_1_1_00_00_05,
            _ => 0,
        },
        15 => match slot {
            0 => 0, // H0120
            1 => 0x0_1_2_07_07_0_0_00_00_07,
            2 => 0x0_1_2_09_09_0_0_00_00_09,
            _ => 0,
        },
        16 => match slot {
            0 => 1, // H17@0
            1 => 0x0_0_0_00_00_5_2_07_07_07,
            _ => 0,
        },
        17 => match slot {
            0 => 1, // H17@1
            1 => 0x0_5_2_07_07_0_0_00_00_07,
            _ => 0,
        },
        18 => match slot {
            0 => 1, // H21@0
            1 => 0x0_0_0_00_00_2_2_07_09_07,
            _ => 0,
        },
        19 => match slot {
            0 => 1, // H21@1
            1 => 0x0_2_2_07_09_0_0_00_00_07,
            _ => 0,
        },
        20 => match slot {
            0 => 1, // H21@2
            _ => 0,
        },
        21 => match slot {
            0 => 1, // H21@3
            _ => 0,
        },
        22 => match slot {
            0 => 1, // H22@0
            1 => 0x0_2_2_07_09_0_0_00_00_07,
            2 => 0x0_0_0_00_00_3_2_0b_0e_0b,
            3 => 0x0_0_0_00_00_4_3_10_17_10,
            4 => 0x0_0_0_00_00_3_2_24_27_24,
            5 => 0x0_0_0_00_00_4_3_29_30_29,
            _ => 0,
        },
        23 => 0,
        24 => match slot {
            0 => 1, // H23@0
            1 => 0x0_4_3_07_0e_0_0_00_00_07,
            _ => 0,
        },
        25 => 0,
        26 => match slot {
            0 => 1, // H16@1
            1 => 0x0_0_0_00_00_3_2_09_0c_09,
            _ => 0,
        },
        27 => match slot {
            0 => 0, // H5000
            1 => 0x0_0_0_00_00_3_2_07_0a_07,
            _ => 0,
        },
        28 => match slot {
            0 => 1, // H51#0
            1 => 0x0_0_0_00_00_3_2_07_0a_07,
            2 => 0x0_2_7_1d_1f_0_0_00_00_1d,
            _ => 0,
        },
        29 => match slot {
            0 => 0, // H52##
            1 => 0x0_0_0_00_00_a_2_07_0a_07,
            2 => 0x0_3_2_1d_20_0_0_00_00_1d,
            3 => 0x0_3_6_22_25_0_0_00_00_22,
            4 => 0x0_3_6_27_2a_0_0_00_00_27,
            _ => 0,
        },
        30 => match slot {
            0 => 0, // H54##
            1 => 0x0_a_2_07_0a_0_0_00_00_07,
            _ => 0,
        },
        _ => 0,
    }
}

// A part of a number's range in which it is a key: the least number and the greatest, in four hexadecimal digits each.
pub fn part_of(number: u64) -> u64
    ensures { result ≡ part_at number }
{
    match number {
        0 => 0x0001_270f, // 1 to 9999
        1 => 0x00c8_012b, // 200 to 299
        _ => 0,
    }
}
