// The field table as numbers: the rows of symbols, each ended by 0; where the rows of each group of codes start; for each symbol from
// MEMBERS (110) on its row and limit, or its group and the number of codes; and the rows of the tables' records.
// specs/Rows.antt computes the same numbers from the model's rows, and `entry` is proved to read those.
ghost use Rattle.std.specs.Prelude.{◌≡◌, ◌<◌, get_or};
ghost use Rattle.intake_fields.specs.Rows.{numbers};

// SYMBOLS to PAIR_ROW are places in TABLE, which is an array of numbers, since the model's rows are compared with it by computing. It is one array and not three, since
// `numbers`, which is public, promises it as one.
// Where the symbols' pairs are, and where the records' rows are.
pub const SYMBOLS: usize = 468;

pub const RECORDS: usize = 500;

// The row of a statement's kind, and those of the special types.
pub const KIND_ROW: usize = 327;

pub const RAYS_ROW: usize = 390;

pub const PAIR_ROW: usize = 394;

const TABLE: [u16; 510] = [
    9, 80, 80, 80, 80, 80, 80, 0, 84, 80, 80, 0, 80, 110, 0, 84, 80, 80, 0, 84, 80, 0, 81, 82, 10,
    80, 80, 0, 81, 82, 86, 0, 81, 82, 87, 0, 81, 82, 84, 0, 81, 82, 84, 109, 0, 81, 82, 93, 93, 0,
    81, 82, 93, 80, 0, 81, 82, 3, 93, 0, 81, 82, 3, 93, 4, 4, 4, 4, 0, 81, 82, 95, 0, 81, 82, 88,
    0, 81, 82, 96, 0, 81, 82, 93, 0, 81, 82, 93, 93, 5, 93, 94, 94, 117, 94, 2, 0, 81, 82, 93, 93,
    94, 94, 94, 0, 81, 82, 93, 118, 0, 81, 82, 3, 93, 0, 81, 82, 18, 93, 93, 0, 81, 82, 93, 93, 93,
    0, 81, 82, 3, 3, 93, 0, 81, 82, 4, 93, 0, 81, 82, 79, 93, 94, 94, 94, 0, 81, 82, 93, 6, 80, 0,
    81, 82, 91, 0, 81, 82, 84, 2, 0, 81, 82, 84, 0, 81, 82, 93, 0, 0, 0, 93, 0, 93, 0, 93, 93, 0,
    94, 0, 0, 0, 0, 80, 0, 80, 0, 0, 0, 0, 0, 0, 0, 0, 0, 94, 0, 0, 84, 80, 80, 80, 80, 80, 80, 0,
    81, 82, 97, 98, 0, 81, 82, 122, 0, 81, 82, 93, 122, 122, 0, 81, 82, 93, 123, 0, 81, 82, 122,
    122, 94, 0, 81, 82, 0, 81, 82, 0, 81, 82, 94, 0, 81, 82, 0, 81, 82, 80, 0, 81, 82, 80, 0, 81,
    82, 93, 93, 0, 81, 82, 93, 93, 94, 93, 0, 81, 82, 93, 120, 93, 100, 0, 81, 82, 93, 99, 0, 81,
    82, 92, 109, 100, 0, 81, 82, 93, 93, 94, 120, 93, 0, 83, 84, 80, 80, 80, 80, 80, 80, 80, 0, 83,
    84, 80, 80, 80, 80, 80, 80, 0, 81, 82, 83, 84, 102, 0, 116, 0, 101, 83, 0, 124, 0, 119, 122, 2,
    0, 125, 0, 108, 0, 83, 81, 82, 115, 0, 83, 81, 82, 84, 89, 0, 83, 81, 82, 80, 84, 90, 0, 83,
    81, 82, 80, 80, 80, 80, 80, 84, 90, 80, 0, 116, 0, 83, 81, 82, 111, 121, 112, 113, 114, 122, 0,
    83, 80, 80, 80, 80, 80, 80, 83, 81, 82, 111, 121, 112, 113, 114, 122, 0, 85, 85, 85, 0, 103,
    84, 0, 0, 8, 12, 15, 19, 22, 28, 32, 36, 40, 45, 50, 55, 60, 69, 73, 77, 81, 85, 97, 105, 110,
    115, 121, 127, 133, 138, 146, 152, 156, 161, 165, 169, 170, 171, 173, 175, 178, 180, 181, 182,
    183, 185, 187, 188, 189, 190, 191, 192, 193, 194, 195, 197, 198, 206, 211, 215, 221, 226, 232,
    235, 238, 242, 245, 249, 253, 258, 265, 272, 277, 283, 291, 64, 301, 32, 310, 128, 316, 1024,
    318, 1024, 397, 5, 402, 27, 429, 5, 434, 4, 438, 3, 441, 8, 449, 2, 321, 0, 323, 0, 327, 0,
    451, 17, 329, 331, 336, 342, 349, 361, 363, 373, 390, 394,
];

// Number i of them, which are the model's.
pub fn entry(i: usize) -> u16
    requires { i < 510 }
    ensures { result ≡ get_or numbers i 0 }
{
    TABLE[i]
}

// All of them, which are the model's.
pub fn numbers() -> [u16; 510]
    ensures { result ≡ numbers }
{
    TABLE
}
