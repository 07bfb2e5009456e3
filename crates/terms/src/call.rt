// A call on a sheet.

#[derive(Clone, Copy)]
pub enum Call {
    Place { rule: u8 },
    Pick { question: u8, option: u8 },
    Settle,
    Standing { question: u8 },
    Overview,
}
