//! Blocks of sixteen bytes: which of them are not of a kind, told by comparisons of all sixteen at once.
//!
//! Each mask has a bit for each byte, the lowest for the first.

ghost use Rattle.std.specs.Prelude.{◌≡◌, not, map};
ghost use Rattle.std.specs.Simd.Lanes.{mask_l};
ghost use Rattle.dotenvy_format.specs.Characters.{continues_key};
ghost use Rattle.dotenvy_format.specs.Value.{is_plain_inside, is_plain_outside};
ghost use Rattle.dotenvy_format.specs.inside.Slices.{is_ascii_in_line, is_calm, is_in_quotes, is_token_byte};

use std::simd::prelude::*;

/// The bytes that don't mean themselves in a value outside quotes.
#[inline(always)]
pub fn not_plain(block: u8x16) -> u64
    ensures { result ≡ mask_l (map (λ b. not (is_plain_outside b)) block) }
{
    let quotes = block.simd_eq(u8x16::splat(b'\'')) | block.simd_eq(u8x16::splat(b'"'));
    let beginnings = block.simd_eq(u8x16::splat(b'\\')) | block.simd_eq(u8x16::splat(b'$'));
    let blanks = block.simd_eq(u8x16::splat(b' ')) | block.simd_eq(u8x16::splat(b'\t'));
    (quotes | beginnings | blanks).to_bitmask()
}

/// The bytes that don't mean themselves between double quotes.
#[inline(always)]
pub fn not_inside(block: u8x16) -> u64
    ensures { result ≡ mask_l (map (λ b. not (is_plain_inside b)) block) }
{
    let ends = block.simd_eq(u8x16::splat(b'\\')) | block.simd_eq(u8x16::splat(b'"'));
    (ends | block.simd_eq(u8x16::splat(b'$'))).to_bitmask()
}

/// The bytes that are no token by themselves, and those with which a blank may begin.
#[inline(always)]
pub fn not_token(block: u8x16) -> u64
    ensures { result ≡ mask_l (map (λ b. not (is_token_byte b)) block) }
{
    let quotes = block.simd_eq(u8x16::splat(b'\'')) | block.simd_eq(u8x16::splat(b'"'));
    let beginnings = block.simd_eq(u8x16::splat(b'\\')) | block.simd_eq(u8x16::splat(b' '));
    let controls = (block - u8x16::splat(b'\t')).simd_lt(u8x16::splat(4));
    let wide = block.simd_eq(u8x16::splat(0xC2))
        | (block - u8x16::splat(0xE1)).simd_lt(u8x16::splat(3));
    (quotes | beginnings | controls | wide).to_bitmask()
}

/// The bytes that aren't calm: quotes, backslashes, line feeds and `#`.
#[inline(always)]
pub fn not_calm(block: u8x16) -> u64
    ensures { result ≡ mask_l (map (λ b. not (is_calm b)) block) }
{
    let quotes = block.simd_eq(u8x16::splat(b'\'')) | block.simd_eq(u8x16::splat(b'"'));
    let beginnings = block.simd_eq(u8x16::splat(b'\\')) | block.simd_eq(u8x16::splat(b'#'));
    (quotes | beginnings | block.simd_eq(u8x16::splat(b'\n'))).to_bitmask()
}

/// Line feeds, backslashes and this quote.
#[inline(always)]
pub fn not_in_quotes(block: u8x16, quote: u8) -> u64
    ensures { result ≡ mask_l (map (λ b. not (is_in_quotes quote b)) block) }
{
    let ends = block.simd_eq(u8x16::splat(quote)) | block.simd_eq(u8x16::splat(b'\\'));
    (ends | block.simd_eq(u8x16::splat(b'\n'))).to_bitmask()
}

/// Line feeds, and the bytes that aren't ASCII.
#[inline(always)]
pub fn not_ascii_in_line(block: u8x16) -> u64
    ensures { result ≡ mask_l (map (λ b. not (is_ascii_in_line b)) block) }
{
    (block.simd_ge(u8x16::splat(0x80)) | block.simd_eq(u8x16::splat(b'\n'))).to_bitmask()
}

/// The bytes that may not follow in a key.
#[inline(always)]
pub fn not_in_key(block: u8x16) -> u64
    ensures { result ≡ mask_l (map (λ b. not (continues_key b)) block) }
{
    let no_letters = ((block | u8x16::splat(0x20)) - u8x16::splat(b'a')).simd_ge(u8x16::splat(26));
    let no_digits = (block - u8x16::splat(b'0')).simd_ge(u8x16::splat(10));
    let no_others = block.simd_ne(u8x16::splat(b'_')) & block.simd_ne(u8x16::splat(b'.'));
    (no_letters & no_digits & no_others).to_bitmask()
}
