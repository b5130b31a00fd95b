// The eight calls, in order, each with the number of its guest.
use rules::{Call, Guest};

#[derive(Clone, Copy)]
pub(crate) struct GuestCall {
    pub(crate) guest_number: u32,
    pub(crate) call: Call,
}

// EC mode, problem state, DAT off; 4K pages, 64K segments; MICBLOK at 000400.
fn usual_guest() -> Guest {
    Guest {
        psw: 0x000900CDAB001000,
        general: [
            0xC0DE0000, 0xC0DE0011, 0x5A001FF0, 0xABCDEF3F, 0x5A023000, 0xC0DE0055, 0xC0DE0066,
            0xC0DE0077, 0xC0DE0088, 0xC0DE0099, 0xC0DE00AA, 0xC0DE00BB, 0xC0DE00CC, 0xC0DE00DD,
            0xC0DE00EE, 0xC0DE00FF,
        ],
        cr0: 0x00800000,
        cr1: 0xFF003000,
        cr6: 0x80000400,
    }
}

fn made(guest_number: u32, guest: Guest, first: u16, installed: bool) -> GuestCall {
    GuestCall {
        guest_number,
        call: Call {
            guest,
            first,
            installed,
        },
    }
}

pub(crate) fn calls() -> [GuestCall; 8] {
    let usual = usual_guest();
    let with_dat = Guest {
        psw: 0x040900CDAB001000,
        ..usual
    };
    // the expanded assist, by bit 6
    let switched_on = Guest {
        cr6: 0x82000400,
        ..usual
    };
    // page 2 in place of page 3
    let mut at_page_2 = usual;
    at_page_2.general[4] = 0x5A022000;
    let at_odd_address = Guest {
        psw: 0x000900CDAB001001,
        ..usual
    };
    [
        made(7, usual, 0x8000, false),
        made(7, usual, 0xB6E1, false),
        made(9, with_dat, 0xB655, false),
        made(9, switched_on, 0x8000, true),
        made(7, at_page_2, 0x0834, false),
        made(7, usual, 0x0834, false),
        made(9, at_odd_address, 0xAC07, false),
        made(7, usual, 0x0700, false),
    ]
}
