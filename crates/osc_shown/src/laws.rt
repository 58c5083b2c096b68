//! What the definitions say of examples. This function does nothing; its contract is the laws.
ghost use Rattle.std.specs.Prelude.{◌≡◌, ◌∷◌, ◌++◌, [], codes, true, false, Some, None};
ghost use Rattle.osc_shown.specs.declared.answered.Answered.TheVariants.{Late, Discarded, PoolFull};
ghost use Rattle.osc_shown.specs.Called.{called};
ghost use Rattle.osc_shown.specs.Columns.{line_text};
ghost use Rattle.osc_shown.specs.Examples.{plain_look};
ghost use Rattle.osc_shown.specs.Numbers.{thousands};
ghost use Rattle.osc_shown.specs.Refusals.{refusal_text};
ghost use Rattle.osc_shown.specs.Tails.{outcome, wait_words};
ghost use Rattle.osc_shown.specs.Texts.{quoted, text_word};
ghost use Rattle.osc_shown.specs.Times.{time_text, zone_text};

/// Times and zones, the words of texts and tails, and whole lines.
pub fn examples()
    ensures few { thousands 999 ≡ codes "999" }
    ensures thousands { thousands 65_504 ≡ codes "65,504" }
    ensures billions { thousands 4_294_967_295 ≡ codes "4,294,967,295" }
    ensures time { time_text (record { ahead = 172_800 }) 0xeeb7_02ec_8000_0000
        ≡ codes "20:00:44.500" }
    ensures nearest { time_text (record { ahead = 172_800 }) 0xeeb7_02ec_1999_9999
        ≡ codes "20:00:44.100" }
    ensures ahead { time_text (record { ahead = 187_200 }) 0xeeb7_02ec_8000_0000
        ≡ codes "00:00:44.500" }
    ensures utc { zone_text (record { ahead = 172_800 }) ≡ codes "UTC" }
    ensures east { zone_text (record { ahead = 176_400 }) ≡ codes "UTC+01:00" }
    ensures west { zone_text (record { ahead = 160_200 }) ≡ codes "UTC-03:30" }
    ensures quotes { quoted (codes "act \"two\"") ≡ codes "\"act \\\"two\\\"\"" }
    ensures letters { quoted (103 ∷ 114 ∷ 195 ∷ 188 ∷ 110 ∷ [])
        ≡ 34 ∷ 103 ∷ 114 ∷ 195 ∷ 188 ∷ 110 ∷ 34 ∷ [] }
    ensures bytes { quoted (103 ∷ 114 ∷ 252 ∷ 110 ∷ []) ≡ codes "\"gr\\xfcn\"" }
    ensures cut { quoted (codes "a clip whose title is too long for any list of cues")
        ≡ codes "\"a clip whose title is too long for any l\"..51" }
    ensures whole { text_word true (codes "a clip whose title is too long for any list of cues")
        ≡ codes "\"a clip whose title is too long for any list of cues\"" }
    ensures all_called { called true (codes "/*") (codes "/a" ∷ codes "/b" ∷ codes "/c"
        ∷ codes "/d" ∷ codes "/e" ∷ []) ≡ codes "-> /a, /b, /c, /d, /e" }
    ensures waits { wait_words (Some 0xeeb7_02ec_8000_0000) 0xeeb7_02f2_0000_0000
        ≡ codes ", in 5.500 s" }
    ensures too_late { outcome Discarded (Some 0xeeb7_02ec_8000_0000) 0xeeb7_02eb_6147_ae15 []
        ≡ codes "discarded, late by 1.120 s" }
    ensures played_late { outcome Late (Some 0xeeb7_02ec_8000_0000) 0xeeb7_02eb_6147_ae15
        (codes "no method") ≡ codes "no method, late by 1.120 s" }
    ensures no_room { outcome PoolFull None 1 [] ≡ codes "refused, no room for its messages" }
    ensures line { line_text (plain_look false) (Some 0xeeb7_02ec_8000_0000) 32 123
        (codes "/light/* 0") (codes "-> /light/back")
        ≡ codes "20:00:44.500  { /light/* 0                      -> /light/back\n" }
    ensures since { line_text (record (plain_look false) { since = Some 0xeeb7_02b6_1f7c_ed92 })
        (Some 0xeeb7_02ec_8000_0000) 32 32 (codes "/fader/7 0.25") []
        ≡ codes "      54.377    /fader/7 0.25\n" }
    ensures caller { line_text (record (plain_look false) { caller = Some 12 })
        (Some 0xeeb7_02ec_8000_0000) 63 32 (codes "/fader/7 0.25") (codes "no method")
        ≡ codes "20:00:44.500 12 ?  /fader/7 0.25                no method\n" }
    ensures coloured { line_text (plain_look true) None 63 32 (codes "/fader/7 0.25")
        (codes "no method")
        ≡ codes "\u{1b}[35m--:--:--.--- ?  /fader/7 0.25                   no method\u{1b}[0m\n" }
    ensures refusal { refusal_text (plain_look false)
        (record { moment = Some 0xeeb7_02b6_1f7c_ed92; sender = None })
        (codes "/buf\0\0\0\0,b\0\0\0\0\0\u{1}" ++ 255 ∷ 1 ∷ 1 ∷ 1 ∷ [])
        (record { kind = 9; at = 19 })
        ≡ codes "19:59:50.123 !  /buf....,b.......... (20 bytes)  "
        ++ codes "no packet, byte 19: padding isn't zero\n" }
{}
