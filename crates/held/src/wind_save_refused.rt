//! Why a half-save is still owed.
use crate::half_save::HalfSave;
use cell::wind::Wind;
use store::refused::Refused;

/// The wind store refused to save, and the half-save is handed back.
#[must_use]
pub struct WindSaveRefused {
    pub owed: HalfSave,
    pub refusal: Refused<Wind>,
}
