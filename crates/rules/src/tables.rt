// Segment tables and page tables.
ghost use Rattle.std.specs.Prelude.{◌≡◌, ◌≤◌, ◌⊎◌};
ghost use Rattle.rules.specs.Translation.{page_bytes, segment_bytes};

#[derive(Clone, Copy)]
pub enum PageSize {
    TwoK,
    FourK,
}

#[derive(Clone, Copy)]
pub enum SegmentSize {
    SixtyFourK,
    OneM,
}

// The four formats of dynamic address translation.
#[derive(Clone, Copy)]
pub struct Format {
    pub page: PageSize,
    pub segment: SegmentSize,
}

impl Format {
    pub fn page_bytes(self) -> u32
        ensures { (result ≡ page_bytes self) × (2048 ≤ result) × ((result ≡ 2048) ⊎ (result ≡ 4096)) }
    {
        match self.page {
            PageSize::TwoK => 2048,
            PageSize::FourK => 4096,
        }
    }

    pub fn segment_bytes(self) -> u32
        ensures { (result ≡ segment_bytes self) × (65536 ≤ result) × ((result ≡ 65536) ⊎ (result ≡ 1048576)) }
    {
        match self.segment {
            SegmentSize::SixtyFourK => 65536,
            SegmentSize::OneM => 1048576,
        }
    }
}

// What can be wrong with tables that are walked, in the order of the tests.
#[derive(Clone, Copy)]
pub enum TableFault {
    SegmentTableLength,
    SegmentInvalid,
    SegmentFormat,
    PageTableLength,
    PageInvalid,
    PageFormat,
}

// On the way from MICRSEG to a page: what ending 3 carries where one of these is not in storage.
#[derive(Clone, Copy)]
pub struct FieldNumbers {
    // MICRSEG itself
    pub table: u32,
    pub segment: u32,
    // the word that holds the swap table's address, and the swap word
    pub swaps: u32,
    pub swap: u32,
    pub page: u32,
    // the page's key block
    pub block: u32,
}

// A page that was found: its swap word and where that stands; the block of the address, and none on an invalid page;
// and whether the address is in the upper block of its page.
#[derive(Clone, Copy)]
pub struct FoundPage {
    pub place: u32,
    pub swap: u32,
    pub block: Option<u32>,
    pub upper: bool,
}
