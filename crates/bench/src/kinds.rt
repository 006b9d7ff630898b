// The kinds of call. The Rust driver numbers them the same way.
#[derive(Clone, Copy)]
pub(crate) enum Kind {
    New,
    InsertRemove,
    RemovePanel,
    SetStyle,
    SetStateTable,
    SetPatchPool,
    MakeField,
    NoField,
    FieldText,
    FieldCursor,
    Metres,
    CleanSolve,
    FullPass,
    Rect,
    IsLive,
    FirstChild,
    NextSibling,
    PointerMoved,
    PressRelease,
    Key,
    Output,
    Absorb,
    Measure,
    NarrowLines,
    WideLines,
    // The floor of a call by value.
    Check,
    Copies,
}

// A number that no kind has.
#[derive(Clone, Copy)]
pub(crate) struct UnknownKind;

impl TryFrom<u32> for Kind {
    type Error = UnknownKind;

    fn try_from(number: u32) -> Result<Kind, UnknownKind> {
        match number {
            0 => Ok(Kind::New),
            1 => Ok(Kind::InsertRemove),
            2 => Ok(Kind::RemovePanel),
            3 => Ok(Kind::SetStyle),
            4 => Ok(Kind::SetStateTable),
            5 => Ok(Kind::SetPatchPool),
            6 => Ok(Kind::MakeField),
            7 => Ok(Kind::NoField),
            8 => Ok(Kind::FieldText),
            9 => Ok(Kind::FieldCursor),
            10 => Ok(Kind::Metres),
            11 => Ok(Kind::CleanSolve),
            12 => Ok(Kind::FullPass),
            13 => Ok(Kind::Rect),
            14 => Ok(Kind::IsLive),
            15 => Ok(Kind::FirstChild),
            16 => Ok(Kind::NextSibling),
            17 => Ok(Kind::PointerMoved),
            18 => Ok(Kind::PressRelease),
            19 => Ok(Kind::Key),
            20 => Ok(Kind::Output),
            21 => Ok(Kind::Absorb),
            22 => Ok(Kind::Measure),
            23 => Ok(Kind::NarrowLines),
            24 => Ok(Kind::WideLines),
            25 => Ok(Kind::Check),
            26 => Ok(Kind::Copies),
            _ => Err(UnknownKind),
        }
    }
}
