//! Groups as their blocks, packed or as lines of digits.
ghost use Rattle.std.specs.Prelude.{◌+◌, ◌++◌, ◌<◌, ◌≡◌, ◌∷◌, [], map};
ghost use Rattle.hex.specs.Hex.{encode_lower};
ghost use Rattle.rds_rows.specs.Sheets.{left_of, size_of, text_of};
ghost use Rattle.rds_tool.specs.GroupText.{group_bytes, group_text};

use rds_code::encode_group;
use rds_rows::{Rows, Sheet};

/// How many bytes the text of a group has at most: 26 digits and a line feed.
const LONGEST_GROUP: usize = 27;

/// The text of groups, of which each is a row: 13 bytes, or with `hex` a line of 26 digits.
#[derive(Drop)]
pub struct GroupRows<'a> {
    pub groups: &'a [[u16; 4]],
    pub hex: bool,
}

impl Rows for GroupRows<'_> {
    ghost rows = { λ rows. map (group_text rows.hex) rows.groups.now };

    ghost longest = { λ rows. 27 };

    fn len(&self) -> usize {
        self.groups.len()
    }

    fn longest_row(&self) -> usize {
        LONGEST_GROUP
    }

    #[tactic(auto, using(crate::proofs::Encoding::group_steps))]
    fn fill(&self, from: usize, to: usize, sheet: &mut Sheet) {
        for words in &self.groups[from..to] {
            push_group(sheet, self.hex, *words);
        }
    }
}

/// Adds the text of a group to a sheet.
fn push_group(sheet: &mut Sheet, hex: bool, words: [u16; 4])
    requires room { 0 < left_of sheet.old }
    requires longest { (size_of sheet.old).1 ≡ 27 }
    ensures text { text_of sheet.new ≡ text_of sheet.old ++ group_text hex words }
    ensures left { left_of sheet.new + 1 ≡ left_of sheet.old }
    ensures size { size_of sheet.new ≡ size_of sheet.old }
{
    let bytes = bytes_of_group(words);
    if hex {
        sheet.push(&line_of(&bytes));
    } else {
        sheet.push(&bytes);
    }
}

/// The digits of 13 bytes on a line of their own.
fn line_of(bytes: &[u8; 13]) -> [u8; 27]
    ensures { result ≡ encode_lower bytes.now ++ 10 ∷ [] }
{
    let mut line = [b'\n'; 27];
    let Ok(()) = hex::encode_to_slice(bytes, &mut line[..26]) else {
        unreachable!()
    };
    line
}

/// The bytes of a group, the first bit highest.
fn bytes_of_group(words: [u16; 4]) -> [u8; 13]
    ensures { result ≡ group_bytes words }
{
    const BLOCK: u128 = 1 << 26;
    let [one, two, three, four] = encode_group(words);
    let bits = ((u128::from(one) * BLOCK + u128::from(two)) * BLOCK + u128::from(three)) * BLOCK
        + u128::from(four);
    let mut bytes = [0; 13];
    bytes.copy_from_slice(&bits.to_be_bytes()[3..]);
    bytes
}
