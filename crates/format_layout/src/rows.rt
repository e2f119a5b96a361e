// The layout table as the code holds it: a block a code, a line a field; a new code is one more block behind the last,
// since layouts are known by their numbers. The check compares all of it with the specification, and nothing else counts its codes or fields. It stands in five pieces, since the
// time to check one grows faster than its lines.
// A `match` whose arms are constants becomes constant data; an array would be written out anew wherever it is used.
ghost use Rattle.std.specs.Prelude.{◌≤◌, ◌≡◌};
ghost use Rattle.format_layout.specs.packed.Rows.{row_of};

// Row 0 is the five bytes of a layout's code: 48 is H, 43 is C, 30 to 39 are the digits, 40 is @ for 1 to 9, 23 is # for 0 to 9.
// A field is one number, all hexadecimal, so that a part of it is taken out as it is: its kind, its mark, its first and its last
// column. The kinds: a text, c comment, 1 whole number, 2 decimal, d date, e latitude, f longitude. The mark: 1 needed, 2 of a
// second set, 3 both. A range stands before these: 1 at least the first number, 2 from the first to the second, 3 one of the three.
// The answer is 0 where a layout has no row with the number, and past the last layout.
pub fn row_of(layout: usize, number: usize) -> u64
    ensures { result ≡ row_of layout number }
{
    match layout {
        0 => match number {
            0 => 0x48_30_30_30_30, // H0000
            1 => 0xa_0_1d_2c,
            2 => 0x1_0_2e_31,
            3 => 0xa_0_32_50,
            _ => 0,
        },
        1 => match number {
            0 => 0x48_30_30_30_31, // H0001
            1 => 0xa_0_1d_24,
            2 => 0xa_0_26_3e,
            3 => 0xd_0_40_47,
            4 => 0xd_0_49_50,
            _ => 0,
        },
        2 => match number {
            0 => 0x48_30_30_30_32, // H0002
            1 => 0xa_0_1d_50,
            _ => 0,
        },
        3 => match number {
            0 => 0x48_30_30_30_33, // H0003
            1 => 0xd_0_1d_24,
            2 => 0xa_0_26_2f,
            3 => 0xa_0_31_40,
            4 => 0xa_0_42_4c,
            5 => 0x2_0_4e_50,
            _ => 0,
        },
        4 => match number {
            0 => 0x48_30_30_30_34, // H0004
            1 => 0xa_0_1d_50,
            _ => 0,
        },
        5 => match number {
            0 => 0x48_30_30_30_35, // H0005
            1 => 0xa_0_1d_50,
            _ => 0,
        },
        6 => match number {
            0 => 0x48_30_30_30_36, // H0006
            1 => 0xa_0_1d_50,
            _ => 0,
        },
        7 => match number {
            0 => 0x48_30_30_30_37, // H0007
            1 => 0xa_0_1d_50,
            _ => 0,
        },
        8 => match number {
            0 => 0x48_30_30_23_38, // H00#8
            1 => 0x2_000_009_000_1_1_1e_1e,
            2 => 0x2_000_001_000_1_1_20_20,
            3 => 0xe_0_22_2d,
            4 => 0xf_0_2e_39,
            5 => 0x1_0_3b_40,
            6 => 0x1_0_42_44,
            7 => 0x2_0_46_4b,
            8 => 0x2_000_001_000_1_0_4d_4d,
            9 => 0x2_000_063_000_1_0_4f_50,
            _ => 0,
        },
        9 => match number {
            0 => 0x48_30_30_23_39, // H00#9
            1 => 0x2_000_009_000_1_1_07_07,
            2 => 0x1_000_000_000_1_1_09_0b,
            3 => 0xe_0_0d_18,
            4 => 0xf_0_1a_25,
            5 => 0x1_000_000_000_1_3_27_29,
            6 => 0xe_2_2b_36,
            7 => 0xf_2_38_43,
            _ => 0,
        },
        10 => match number {
            0 => 0x43_30_30_30_31, // C0001
            1 => 0xc_0_06_50,
            _ => 0,
        },
        11 => match number {
            0 => 0x43_30_30_30_32, // C0002
            1 => 0xc_0_06_50,
            _ => 0,
        },
        _ => rows_from_h0100(layout, number),
    }
}

// The rows from the layout of H0100 on.
fn rows_from_h0100(layout: usize, number: usize) -> u64
    requires { 12 ≤ layout }
    ensures { result ≡ row_of layout number }
{
    match layout {
        12 => match number {
            0 => 0x48_30_31_30_30, // H0100
            1 => 0xd_0_07_0e,
            2 => 0x1_000_000_000_1_0_10_13,
            3 => 0x2_000_001_000_1_1_15_15,
            4 => 0xa_0_17_50,
            _ => 0,
        },
        13 => match number {
            0 => 0x48_30_31_30_31, // H0101
            1 => 0x1_000_000_000_1_1_07_0a,
            2 => 0xe_0_0c_17,
            3 => 0xf_0_19_24,
            4 => 0x2_0_26_2c,
            5 => 0x2_0_2e_33,
            _ => 0,
        },
        14 => match number {
            0 => 0x48_30_31_31_40, // H011@
            1 => 0xa_0_07_18,
            2 => 0xa_0_19_2b,
            3 => 0x2_0_2c_37,
            4 => 0x2_0_39_44,
            5 => 0x2_0_46_50,
            _ => 0,
        },
        15 => match number {
            0 => 0x48_30_31_32_30, // H0120
            1 => 0x2_001_009_000_1_1_07_07,
            2 => 0x2_001_009_000_1_1_09_09,
            3 => 0x2_000_001_000_1_0_0b_0b,
            4 => 0x2_0_0d_16,
            5 => 0x2_0_18_21,
            6 => 0x2_0_23_2c,
            7 => 0x2_0_2e_35,
            8 => 0x2_0_37_3e,
            9 => 0x2_0_40_47,
            10 => 0x2_0_49_50,
            _ => 0,
        },
        16 => match number {
            0 => 0x48_31_37_40_30, // H17@0
            1 => 0x1_000_000_000_1_1_07_07,
            2 => 0x2_000_001_000_1_0_09_09,
            3 => 0x2_000_001_000_1_0_0a_0a,
            4 => 0x2_000_001_000_1_0_0b_0b,
            5 => 0x3_003_004_009_1_0_0c_0c,
            6 => 0x3_000_001_009_1_0_0d_0d,
            7 => 0x2_0_0f_16,
            8 => 0x2_0_18_1f,
            9 => 0x2_000_004_000_1_0_21_21,
            10 => 0x2_000_004_000_1_0_22_22,
            11 => 0x2_0_24_2a,
            12 => 0x2_0_2c_32,
            13 => 0x2_0_34_3a,
            14 => 0xa_0_3c_50,
            _ => 0,
        },
        17 => match number {
            0 => 0x48_31_37_40_31, // H17@1
            1 => 0x1_000_000_000_1_1_07_07,
            2 => 0xa_0_09_50,
            _ => 0,
        },
        _ => rows_from_h2100(layout, number),
    }
}

// The rows from the layout of H21@0 on.
fn rows_from_h2100(layout: usize, number: usize) -> u64
    requires { 18 ≤ layout }
    ensures { result ≡ row_of layout number }
{
    match layout {
        18 => match number {
            0 => 0x48_32_31_40_30, // H21@0
            1 => 0x1_000_000_000_1_1_07_09,
            2 => 0x2_0_0b_11,
            3 => 0x2_0_13_19,
            4 => 0x2_0_1b_20,
            5 => 0x2_0_23_29,
            6 => 0x2_0_2b_31,
            7 => 0x2_0_33_38,
            8 => 0x2_0_3a_40,
            9 => 0x2_0_42_47,
            _ => 0,
        },
        19 => match number {
            0 => 0x48_32_31_40_31, // H21@1
            1 => 0x1_000_000_000_1_1_07_09,
            2 => 0x2_0_0b_0f,
            3 => 0x2_0_11_15,
            4 => 0x1_0_17_19,
            5 => 0x2_0_1b_1f,
            6 => 0x2_0_21_25,
            7 => 0x1_0_27_29,
            8 => 0x2_0_2b_2f,
            9 => 0x1_0_31_33,
            10 => 0x2_0_35_39,
            11 => 0x1_0_3b_3d,
            12 => 0x2_0_3f_43,
            13 => 0x2_000_004_000_1_0_45_45,
            14 => 0x2_000_004_000_1_0_47_47,
            _ => 0,
        },
        20 => match number {
            0 => 0x48_32_31_40_32, // H21@2
            1 => 0xa_0_07_50,
            _ => 0,
        },
        21 => match number {
            0 => 0x48_32_31_40_33, // H21@3
            1 => 0xa_0_07_50,
            _ => 0,
        },
        22 => match number {
            0 => 0x48_32_32_40_30, // H22@0
            1 => 0x1_000_000_000_1_1_07_09,
            2 => 0x1_001_000_000_1_1_0b_0e,
            3 => 0xa_0_10_17,
            4 => 0x2_0_19_20,
            5 => 0x2_000_001_000_1_0_22_22,
            6 => 0x1_001_000_000_1_3_24_27,
            7 => 0xa_2_29_30,
            8 => 0x2_2_32_39,
            9 => 0x2_000_001_000_1_2_3b_3b,
            _ => 0,
        },
        _ => rows_from_h2300(layout, number),
    }
}

// The rows from the layout of H2300 on.
fn rows_from_h2300(layout: usize, number: usize) -> u64
    requires { 23 ≤ layout }
    ensures { result ≡ row_of layout number }
{
    match layout {
        23 => match number {
            0 => 0x48_32_33_30_30, // H2300
            1 => 0xa_0_07_50,
            _ => 0,
        },
        24 => match number {
            0 => 0x48_32_33_40_30, // H23@0
            1 => 0xa_1_07_0e,
            2 => 0x2_0_0f_14,
            3 => 0x2_000_168_000_1_0_15_17,
            4 => 0x2_0_18_1b,
            5 => 0x2_000_168_000_1_0_1c_1e,
            6 => 0x2_0_1f_22,
            7 => 0x2_000_168_000_1_0_23_25,
            8 => 0x2_0_26_29,
            9 => 0x2_000_168_000_1_0_2a_2c,
            10 => 0x2_0_2d_30,
            11 => 0x2_000_168_000_1_0_31_33,
            12 => 0x2_0_34_37,
            13 => 0x2_000_168_000_1_0_38_3a,
            14 => 0x2_0_3b_3e,
            15 => 0x2_000_168_000_1_0_3f_41,
            16 => 0x2_0_42_45,
            17 => 0x2_000_168_000_1_0_46_48,
            18 => 0x2_0_49_4c,
            _ => 0,
        },
        25 => match number {
            0 => 0x48_32_33_30_31, // H2301
            1 => 0x2_000_001_000_1_0_07_07,
            2 => 0xa_0_09_50,
            _ => 0,
        },
        _ => rows_from_h1601(layout, number),
    }
}

// The rows from the layout of H16@1 on.
fn rows_from_h1601(layout: usize, number: usize) -> u64
    requires { 26 ≤ layout }
    ensures { result ≡ row_of layout number }
{
    match layout {
        26 => match number {
            0 => 0x48_31_36_40_31, // H16@1
            1 => 0x1_000_000_000_1_0_07_07,
            2 => 0x1_001_000_000_1_1_09_0c,
            3 => 0x2_0_0e_14,
            4 => 0x2_0_16_1c,
            5 => 0x2_0_1e_23,
            6 => 0x2_0_25_29,
            7 => 0x2_0_2b_2f,
            8 => 0x2_0_31_35,
            9 => 0x2_0_37_3d,
            10 => 0x2_0_3f_45,
            11 => 0x2_000_001_000_1_0_47_47,
            12 => 0x2_0_49_50,
            _ => 0,
        },
        27 => match number {
            0 => 0x48_35_30_30_30, // H5000
            1 => 0x1_001_000_000_1_1_07_0a,
            2 => 0xa_0_0c_1b,
            3 => 0x2_000_001_000_1_0_1d_1d,
            4 => 0xe_0_1f_2a,
            5 => 0xf_0_2c_37,
            6 => 0x2_0_39_3f,
            7 => 0x2_000_001_000_1_0_41_41,
            8 => 0x2_000_005_000_1_0_43_43,
            _ => 0,
        },
        28 => match number {
            0 => 0x48_35_31_23_30, // H51#0
            1 => 0x1_001_000_000_1_1_07_0a,
            2 => 0xa_0_0c_1b,
            3 => 0x1_000_000_000_1_0_1d_1f,
            4 => 0x2_0_21_27,
            5 => 0x2_0_29_2f,
            6 => 0x2_0_31_37,
            _ => 0,
        },
        29 => match number {
            0 => 0x48_35_32_23_23, // H52##
            1 => 0x1_001_000_000_1_1_07_0a,
            2 => 0xa_0_0c_1b,
            3 => 0x1_001_000_000_1_0_1d_20,
            4 => 0x1_000_000_000_1_0_22_25,
            5 => 0x1_000_000_000_1_0_27_2a,
            6 => 0x2_000_00b_000_1_0_2c_2d,
            7 => 0x1_001_000_000_1_0_2f_31,
            8 => 0xa_0_33_50,
            _ => 0,
        },
        30 => match number {
            0 => 0x48_35_34_23_23, // H54##
            1 => 0x1_001_000_000_1_0_07_0a,
            2 => 0x2_0_0c_17,
            3 => 0x2_0_19_24,
            4 => 0x2_000_001_000_1_0_26_26,
            5 => 0x2_000_001_000_1_0_28_28,
            6 => 0x2_0_2a_35,
            7 => 0x2_0_37_40,
            8 => 0x2_0_42_49,
            9 => 0x2_0_4b_4e,
            10 => 0x2_000_004_000_1_0_50_50,
            _ => 0,
        },
        _ => 0,
    }
}
