// The names of syslog's facilities and severities.
ghost use Rattle.std.specs.Prelude.{◌≡◌};
ghost use Rattle.gl_text.specs.SyslogNames.{facility_name, severity_name};

/// The name of a facility, 0 to 23 (RFC 5424 section 6.2.1, table 1); empty for another number.
pub fn facility_name(facility: u8) -> &'static str
    ensures { result.now ≡ facility_name facility }
{
    match facility {
        0 => "kern",
        1 => "user",
        2 => "mail",
        3 => "daemon",
        4 => "auth",
        5 => "syslog",
        6 => "lpr",
        7 => "news",
        8 => "uucp",
        9 => "cron",
        10 => "authpriv",
        11 => "ftp",
        12 => "ntp",
        13 => "audit",
        14 => "alert",
        15 => "clock",
        16 => "local0",
        17 => "local1",
        18 => "local2",
        19 => "local3",
        20 => "local4",
        21 => "local5",
        22 => "local6",
        23 => "local7",
        _ => "",
    }
}

/// The name of a severity, 0 to 7 (RFC 5424 section 6.2.1, table 2); empty for another number.
pub fn severity_name(severity: u8) -> &'static str
    ensures { result.now ≡ severity_name severity }
{
    match severity {
        0 => "Emergency",
        1 => "Alert",
        2 => "Critical",
        3 => "Error",
        4 => "Warning",
        5 => "Notice",
        6 => "Informational",
        7 => "Debug",
        _ => "",
    }
}
