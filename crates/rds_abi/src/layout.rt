//! The values that cross to C: only numbers, in structs whose layout is C's.

/// A gap in a recording, whose bits mean nothing: the places from `begin` to before `end`. 16 bytes.
#[repr(C)]
#[derive(Clone, Copy)]
pub struct RdsGap {
    /// The first place.
    pub begin: u64,
    /// The place after the last.
    pub end: u64,
}

/// The numbers of a decoder's rules: 32 bytes.
#[repr(C)]
#[derive(Clone, Copy, PartialEq, Eq)]
pub struct RdsRules {
    /// The longest burst that is corrected, in bits: 0 to 5.
    pub burst: u32,
    /// How many blocks back a partner is looked for while acquiring: 1 to 8.
    pub reach: u32,
    /// After how many bad blocks a lock is lost: 1 to 64.
    pub loss: u32,
    /// 0 if these are bad blocks in a row; else among how many of the last blocks they are: `loss` to 64.
    pub of: u32,
    /// Has to be 0.
    pub reserved: [u32; 4],
}

/// The information words of a group's four blocks: 8 bytes.
#[repr(C)]
#[derive(Clone, Copy)]
pub struct RdsWords {
    pub words: [u16; 4],
}

/// The 104 bits of a group as it is sent, the first bit highest: 13 bytes.
#[repr(C)]
#[derive(Clone, Copy)]
pub struct RdsPacked {
    pub bytes: [u8; 13],
}

/// The twelve totals of a report: 128 bytes.
#[repr(C)]
#[derive(Clone, Copy, PartialEq, Eq)]
pub struct RdsTotals {
    /// Valid blocks.
    pub valid: u64,
    /// Corrected blocks, by the span of their burst: 1 to 5 bits.
    pub bursts: [u64; 5],
    /// Blocks that were read and are neither valid nor corrected.
    pub lost: u64,
    /// Bits corrected: the ones of all bursts.
    pub bits: u64,
    /// Groups.
    pub groups: u64,
    /// Groups of which all four blocks are valid or corrected.
    pub complete: u64,
    /// Acquisitions.
    pub acquired: u64,
    /// Losses.
    pub losses: u64,
    /// Always 0.
    pub reserved: [u64; 4],
}

impl RdsTotals {
    /// The totals of no items.
    pub const NONE: RdsTotals = RdsTotals {
        valid: 0,
        bursts: [0; 5],
        lost: 0,
        bits: 0,
        groups: 0,
        complete: 0,
        acquired: 0,
        losses: 0,
        reserved: [0; 4],
    };
}

/// A block: 8 bytes, all 0 if it is missing.
#[repr(C)]
#[derive(Clone, Copy)]
pub struct RdsBlock {
    /// The burst that was corrected, as the ones of a word of 26 bits, or 0.
    pub burst: u32,
    /// The information word, or 0.
    pub info: u16,
    /// 0 missing, 1 lost, 2 valid, 3 corrected.
    pub kind: u8,
    /// 0 none, 1 A, 2 B, 3 C, 4 C', 5 D.
    pub offset: u8,
}

impl RdsBlock {
    /// A block that is missing.
    pub const MISSING: RdsBlock = RdsBlock {
        burst: 0,
        info: 0,
        kind: 0,
        offset: 0,
    };
}

/// An item of a report: 48 bytes.
#[repr(C)]
#[derive(Clone, Copy)]
pub struct RdsItem {
    /// The place of the block that acquired or lost, or of a group's first bit that was read.
    pub place: u64,
    /// The blocks of a group, or all missing.
    pub blocks: [RdsBlock; 4],
    /// 1 an acquisition, 2 a group, 3 a loss.
    pub what: u8,
    /// Of an acquisition the number of its block, 1 to 4; of a group its type, 0 to 15, or 255 if that is unknown.
    pub number: u8,
    /// Of a group its version: 1 A, 2 B, 3 unknown; else 0.
    pub version: u8,
    /// 1 for a group whose blocks 2 and 3 name different versions.
    pub conflict: u8,
    /// Always 0.
    pub unused: u32,
}

/// The state of a run between two bits: 40 bytes, all 0 without sync.
#[repr(C)]
#[derive(Clone, Copy, PartialEq, Eq)]
pub struct RdsState {
    /// Where the next block ends.
    pub due: u64,
    /// The lock's bad blocks, 0 if there are none: how many of the last in a row were bad; or, by a share,
    /// which of the last, the newest lowest, 1 is bad.
    pub bad: u64,
    /// The number of the next block, 1 to 4, or 0 if no block is known.
    pub number: u32,
    /// The number of the first block that was read in the group in progress.
    pub first: u32,
    /// The rule of loss that the bad blocks were counted by, as the rules have it.
    pub loss: u32,
    /// The same.
    pub of: u32,
    /// Always 0.
    pub reserved: u64,
}

impl RdsState {
    /// The state of a run that knows no block yet.
    pub const SEARCHING: RdsState = RdsState {
        due: 0,
        bad: 0,
        number: 0,
        first: 0,
        loss: 0,
        of: 0,
        reserved: 0,
    };
}

/// The state of a stream between two chunks: 256 bytes, all 0 before the first call.
#[repr(C)]
#[derive(Clone, Copy, PartialEq, Eq)]
pub struct RdsStream {
    /// By this number a stream is known, and the order of bytes: 0x31534452.
    pub magic: u32,
    /// The version of these numbers: 1.
    pub version: u32,
    /// The rules that the stream is decoded by.
    pub rules: RdsRules,
    /// How many bits were heard, which is the place of the next.
    pub place: u64,
    /// The state after them.
    pub state: RdsState,
    /// The totals of the items that are complete.
    pub totals: RdsTotals,
    /// The last 30 bytes that were heard, or all, and then zeros.
    pub tail: [u8; 32],
    /// Always 0.
    pub reserved: u64,
}

impl RdsStream {
    /// A stream of which nothing was heard yet.
    pub const UNHEARD: RdsStream = RdsStream {
        magic: 0,
        version: 0,
        rules: RdsRules {
            burst: 0,
            reach: 0,
            loss: 0,
            of: 0,
            reserved: [0; 4],
        },
        place: 0,
        state: RdsState::SEARCHING,
        totals: RdsTotals::NONE,
        tail: [0; 32],
        reserved: 0,
    };
}

/// The state of a stream of symbols between two chunks: 496 bytes, all 0 before the first call.
#[repr(C)]
#[derive(Clone, Copy)]
pub struct RdsSoft {
    /// The stream of the symbols' bits.
    pub stream: RdsStream,
    /// The last 240 symbols that were taken, after zeros if there are fewer.
    pub symbols: [i8; 240],
}
