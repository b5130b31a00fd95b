// Bits of the real PSW, of control registers 0 and 6 and of MICRSEG, as the set-ups have them.
use crate::places::REAL_SEGMENT_TABLE;

// Real PSW: EC mode (bit 12) with problem state (15); the condition code (18-19); the program mask (20-23) 1010; DAT
// (5); the key (8-11) 1; the instruction address (40-63).
pub(crate) const PSW_EC_PROBLEM: u64 = 0x0009000000000000;

pub(crate) const PSW_CODE: u64 = 0x0000300000000000;

pub(crate) const PSW_MASK_A: u64 = 0x00000A0000000000;

pub(crate) const PSW_DAT: u64 = 0x0400000000000000;

pub(crate) const PSW_KEY_1: u64 = 0x0010000000000000;

pub(crate) const PSW_ADDRESS: u64 = 0x0000000000FFFFFF;

// Bits 8-12 of control register 0, real or virtual.
pub(crate) const PAGES_2K_SEGMENTS_64K: u32 = 0x00400000;

pub(crate) const PAGES_2K_SEGMENTS_1M: u32 = 0x00500000;

pub(crate) const PAGES_4K_SEGMENTS_64K: u32 = 0x00800000;

pub(crate) const PAGES_4K_SEGMENTS_1M: u32 = 0x00900000;

// Control register 0 bit 3.
pub(crate) const LOW_ADDRESS_PROTECTION: u32 = 0x10000000;

// Control register 6 bit 6.
pub(crate) const EXPANDED_ASSIST: u32 = 0x02000000;

// MICRSEG of LRA: length 01, 64K segments, 4K pages or (bit 30) 2K pages.
pub(crate) const MICRSEG_4K: u32 = 0x01000000 + REAL_SEGMENT_TABLE;

pub(crate) const MICRSEG_2K: u32 = MICRSEG_4K + 2;
