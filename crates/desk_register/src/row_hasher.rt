ghost use Rattle.std.specs.Prelude.{◌+◌, ◌*◌, ◌/◌, ◌%◌, ◌^◌};
ghost use Rattle.desk_register.specs.Hashed.{first_number};
ghost use Rattle.desk_register.specs.declared.row_hasher.TheConstants.{MULTIPLIER};

use std::hash::Hasher;

// Two to the 64th over the golden ratio, which spreads numbers that are alike.
const MULTIPLIER: u64 = 0x9e37_79b9_7f4a_7c15;

/// Hashes keys of one 32-bit number so that eight in a row share a group of a map's table, whose 64 bytes are looked at together: keys
/// that are numbered in the order in which they come are then looked for beside each other. Groups are spread over the table.
#[derive(Clone, Copy, Default)]
pub(crate) struct RowHasher {
    number: u32,
}

impl Hasher for RowHasher {
    ghost write = { λ _ bytes. record { number = first_number bytes } };

    ghost finish = { λ s. s.number / 8 * MULTIPLIER % 2 ^ 64 / 2 ^ 35 + s.number % 8 * 2 ^ 29 };

    // The group is taken from the lowest bits, and what tells the keys in it apart from the highest of 32.
    fn finish(&self) -> u64 {
        let spread = u64::from(self.number / 8).wrapping_mul(MULTIPLIER);
        (spread >> 35) + (u64::from(self.number % 8) << 29)
    }

    fn write(&mut self, bytes: &[u8]) {
        self.number = match bytes.first_chunk() {
            Some(first) => u32::from_le_bytes(*first),
            None => 0,
        };
    }
}
