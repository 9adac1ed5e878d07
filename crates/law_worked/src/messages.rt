//! Worked messages that need no random word.
ghost use Rattle.law_worked.specs.Messages.{A0Length, A0Schemes, A0Type, BuLength, BuFlag, CcFormat, JaAsk, B2Echo, NoGrants, NoAsk, Unknown, NgRefused, VaTrailing, CAll, GcSpaces, GcTogether, GcRefused, FkRepeats, RaAsk, RaDone, AActivity, BuKey, CcBlockLength, CcControl, NgInvalid, MacWhole, MacPadding, HostMessage, UnknownMessage, UnknownWord, A0Ask, A0NoAsk, DaTable};

/// Messages that need no cipher.
pub fn readings()
    ensures a0_length { A0Length }
    ensures a0_schemes { A0Schemes }
    ensures a0_type { A0Type }
    ensures bu_length { BuLength }
    ensures bu_flag { BuFlag }
    ensures cc_format { CcFormat }
    ensures ja_ask { JaAsk }
    ensures b2_echo { B2Echo }
    ensures no_grants { NoGrants }
    ensures no_ask { NoAsk }
    ensures unknown { Unknown }
    ensures ng_refused { NgRefused }
    ensures va_trailing { VaTrailing }
    ensures call { CAll }
    ensures gc_spaces { GcSpaces }
    ensures gc_together { GcTogether }
    ensures gc_refused { GcRefused }
    ensures fk_repeats { FkRepeats }
    ensures ra_ask { RaAsk }
    ensures ra_done { RaDone }
    ensures aactivity { AActivity }
{}

/// Messages under the LMK set whose halves are all equal, and whole messages.
pub fn single_keys()
    ensures bu_key { BuKey }
    ensures cc_block_length { CcBlockLength }
    ensures cc_control { CcControl }
    ensures ng_invalid { NgInvalid }
    ensures mac_whole { MacWhole }
    ensures mac_padding { MacPadding }
    ensures host_message { HostMessage }
    ensures unknown_message { UnknownMessage }
    ensures unknown_word { UnknownWord }
    ensures a0_ask { A0Ask }
    ensures a0_no_ask { A0NoAsk }
    ensures da_table { DaTable }
{}
