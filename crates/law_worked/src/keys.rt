//! Worked messages with keys, PINs and values.
ghost use Rattle.law_worked.specs.Keys.{A6Repeats, A6Imports, A8Refused, A8Exports, A8Forbidden, BuWhole, A0Forbidden, FkJoins, A0Draws, A0DrawsNext, GcShows, JaDraws, CaParity, EaParity, CaTranslates, CaLong, NgShows, BaShort, BaSeals, DeTable, CyVerifies, DcVerifies, EaOffset, NcChecks, MacParts, M8Differs, M8Verifies};

/// Messages of key commands.
pub fn key_rows()
    ensures a6_repeats { A6Repeats }
    ensures a6_imports { A6Imports }
    ensures a8_refused { A8Refused }
    ensures a8_exports { A8Exports }
    ensures a8_forbidden { A8Forbidden }
    ensures bu_whole { BuWhole }
    ensures a0_forbidden { A0Forbidden }
    ensures fk_joins { FkJoins }
{}

/// Messages that draw; the random words are left as they are.
pub fn drawn_rows()
    ensures a0_draws { A0Draws }
    ensures a0_draws_next { A0DrawsNext }
    ensures gc_shows { GcShows }
    ensures ja_draws { JaDraws }
{}

/// Messages of PINs.
pub fn pin_rows()
    ensures ca_parity { CaParity }
    ensures ea_parity { EaParity }
    ensures ca_translates { CaTranslates }
    ensures ca_long { CaLong }
    ensures ng_shows { NgShows }
    ensures ba_short { BaShort }
    ensures ba_seals { BaSeals }
    ensures de_table { DeTable }
{}

/// Messages of verification values and MACs.
pub fn value_rows()
    ensures cy_verifies { CyVerifies }
    ensures dc_verifies { DcVerifies }
    ensures ea_offset { EaOffset }
    ensures nc_checks { NcChecks }
    ensures mac_parts { MacParts }
    ensures m8_differs { M8Differs }
    ensures m8_verifies { M8Verifies }
{}
