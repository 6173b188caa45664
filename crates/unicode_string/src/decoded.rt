// Copyright (c) The nextest Contributors
// SPDX-License-Identifier: MIT OR Apache-2.0

// The decoding space.
ghost use Rattle.std.specs.Prelude.{◌≡◌, ◌+◌, ◌≤◌, true, length};
ghost use Rattle.std.proofs.Math.Utf8.{encode, scalar};

// The space that names with an escape are decoded into, and how much of it is used.
#[derive(Drop)]
pub(crate) struct Decoded<'a> {
    pub(crate) space: &'a mut [u8; 1024],
    pub(crate) used: usize,
    ghost whole: { length space.now ≡ 1024 },
}

impl Decoded<'_> {
    ghost use Rattle.unicode_string.specs.View.{filling, filled};

    // Puts bytes behind those before.
    pub(crate) fn put_all(&mut self, bytes: &[u8])
        requires { self.old.used + length bytes.now ≤ 1024 }
        ensures { filling self.new ≡ filled (filling self.old) bytes.now }
    {
        for b in bytes {
            self.space[self.used] = *b;
            self.used += 1;
        }
    }

    // Puts the bytes of a character behind those before.
    pub(crate) fn put_char(&mut self, code: u32)
        requires good { scalar code ≡ true }
        requires room { self.old.used + length (encode code) ≤ 1024 }
        ensures { filling self.new ≡ filled (filling self.old) (encode code) }
    {
        if let Some(c) = char::from_u32(code) {
            let mut bytes = [0; 4];
            self.put_all(c.encode_utf8(&mut bytes).as_bytes());
        }
    }
}
