// What is read from left to right is what the grammars have.
ghost use Rattle.std.specs.Prelude.{◌≡◌, ℕ, List, Some};
ghost use Rattle.gl_syslogtext.specs.declared.parts.Parts.{Parts};
ghost use Rattle.gl_syslogtext.specs.declared.bsd.BsdParts.{BsdParts};
ghost use Rattle.gl_syslogtext.specs.Rfc5424.{Reads5424};
ghost use Rattle.gl_syslogtext.specs.MessageReading.{parts_of};
ghost use Rattle.gl_syslogtext.specs.Rfc3164.{Reads3164, bsd_parts_of};

/// A text reads as a message of RFC 5424, and one of RFC 3164, exactly where the grammar has it, and with those parts.
pub fn law_messages_are_read()
    ensures read_5424 { (text : List ℕ) (parts : Parts) → Reads5424 text parts → parts_of text ≡ Some parts }
    ensures is_5424 { (text : List ℕ) (parts : Parts) → parts_of text ≡ Some parts → Reads5424 text parts }
    ensures read_3164 { (text : List ℕ) (parts : BsdParts) → Reads3164 text parts → bsd_parts_of text ≡ Some parts }
    ensures is_3164 { (text : List ℕ) (parts : BsdParts) → bsd_parts_of text ≡ Some parts → Reads3164 text parts }
{}
