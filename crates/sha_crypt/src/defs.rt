//! Sizes, characters and the places of a digest's bytes.

/// The bytes of a SHA-256-crypt digest.
pub const BLOCK_SIZE_SHA256: usize = 32;

/// The bytes of a SHA-512-crypt digest.
pub const BLOCK_SIZE_SHA512: usize = 64;

/// The characters of a SHA-256-crypt hash field.
pub const PW_SIZE_SHA256: usize = 43;

/// The characters of a SHA-512-crypt hash field.
pub const PW_SIZE_SHA512: usize = 86;

/// The bytes of a salt that count.
pub const SALT_MAX_LEN: usize = 16;

/// The characters of hash fields, by their values.
pub const TAB: &[u8] = b"./0123456789ABCDEFGHIJKLMNOPQRSTUVWXYZabcdefghijklmnopqrstuvwxyz";

/// Which byte of a SHA-256-crypt digest stands at each place of its hash field.
pub const MAP_SHA256: [u8; 32] = [
    20, 10, 0, 11, 1, 21, 2, 22, 12, 23, 13, 3, 14, 4, 24, 5, 25, 15, 26, 16, 6, 17, 7, 27, 8, 28,
    18, 29, 19, 9, 30, 31,
];

/// Which byte of a SHA-512-crypt digest stands at each place of its hash field.
pub const MAP_SHA512: [u8; 64] = [
    42, 21, 0, 1, 43, 22, 23, 2, 44, 45, 24, 3, 4, 46, 25, 26, 5, 47, 48, 27, 6, 7, 49, 28, 29, 8,
    50, 51, 30, 9, 10, 52, 31, 32, 11, 53, 54, 33, 12, 13, 55, 34, 35, 14, 56, 57, 36, 15, 16, 58,
    37, 38, 17, 59, 60, 39, 18, 19, 61, 40, 41, 20, 62, 63,
];

// Where each byte of a digest stands in its hash field.

pub(crate) const BACK_SHA256: [u8; 32] = [
    2, 4, 6, 11, 13, 15, 20, 22, 24, 29, 1, 3, 8, 10, 12, 17, 19, 21, 26, 28, 0, 5, 7, 9, 14, 16,
    18, 23, 25, 27, 30, 31,
];

pub(crate) const BACK_SHA512: [u8; 64] = [
    2, 3, 7, 11, 12, 16, 20, 21, 25, 29, 30, 34, 38, 39, 43, 47, 48, 52, 56, 57, 61, 1, 5, 6, 10,
    14, 15, 19, 23, 24, 28, 32, 33, 37, 41, 42, 46, 50, 51, 55, 59, 60, 0, 4, 8, 9, 13, 17, 18, 22,
    26, 27, 31, 35, 36, 40, 44, 45, 49, 53, 54, 58, 62, 63,
];
