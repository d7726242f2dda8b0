// The text of structured data.
ghost use Rattle.std.specs.Prelude.{◌≡◌, ◌≤◌, ◌<◌, ◌+◌, ◌++◌, ◌∷◌, [], length, slice_index, take, drop, IfOk, OnOk, not, true};
ghost use Rattle.std.specs.List.{prefix_len};
ghost use Rattle.std.specs.String.{string_bytes};
ghost use Rattle.gl_syslogtext.specs.Data.{is_special};
ghost use Rattle.gl_syslogprint.specs.Printing.{escaped, param_text, params_text, element_text, elements_text, data_text};

use gl_base::Text;
use gl_syslogtext::Element;
use gl_syslogtext::data::is_special;
use gl_syslogtext::stamp::cut;
use std::alloc::{AllocError, Global};

/// How many bytes at the front aren't escaped.
fn plain_len(bytes: &[u8]) -> usize
    ensures len { result ≡ prefix_len (λ b. not (is_special b)) bytes.now }
    ensures within { result ≤ length bytes.now }
{
    for (i, byte) in bytes.iter().enumerate() {
        if is_special(*byte) {
            return i;
        }
    }
    bytes.len()
}

/// What stands before the byte that is escaped first, and what begins with it.
fn split_plain(text: &str, len: usize) -> (&str, &str)
    requires len { len ≡ prefix_len (λ b. not (is_special b)) text.now }
    requires within { len < length text.now }
    ensures plain { result.0.now ≡ take len text.now }
    ensures behind { result.1.now ≡ drop len text.now }
    ensures ascii { slice_index result.1.now 0 < 128 }
{
    text.split_at(len)
}

/// A value with a backslash before each byte that one escapes.
fn push_escaped(out: &mut String<Global>, value: &str) -> Result<(), AllocError>
    ensures { OnOk result (string_bytes out.new ≡ string_bytes out.old ++ escaped value.now) }
{
    let mut rest = value;
    'rest: loop {
        let len = plain_len(rest.as_bytes());
        if len == rest.len() {
            break;
        }
        let (plain, behind) = split_plain(rest, len);
        let (special, after) = cut(behind, 1);
        out.push_str(plain)?;
        out.push_str("\\")?;
        out.push_str(special)?;
        rest = after;
    }
    out.push_str(rest)?;
    Ok(())
}

fn push_param(out: &mut String<Global>, param: &(Text, Text)) -> Result<(), AllocError>
    ensures { OnOk result (string_bytes out.new ≡ string_bytes out.old ++ param_text param.now) }
{
    out.push_str(" ")?;
    out.push_str(param.0.as_str())?;
    out.push_str("=\"")?;
    push_escaped(out, param.1.as_str())?;
    out.push_str("\"")?;
    Ok(())
}

fn push_params(out: &mut String<Global>, params: &[(Text, Text)]) -> Result<(), AllocError>
    ensures { OnOk result (string_bytes out.new ≡ string_bytes out.old ++ params_text params.now) }
{
    for param in params {
        push_param(out, param)?;
    }
    Ok(())
}

#[tactic(auto, unfolding(crate::specs::Printing::element_text))]
fn push_element(out: &mut String<Global>, element: &Element) -> Result<(), AllocError>
    ensures { OnOk result (string_bytes out.new ≡ string_bytes out.old ++ element_text element.now) }
{
    out.push_str("[")?;
    out.push_str(element.id.as_str())?;
    push_params(out, element.params.as_slice())?;
    out.push_str("]")?;
    Ok(())
}

fn push_elements(out: &mut String<Global>, elements: &[Element]) -> Result<(), AllocError>
    ensures { OnOk result (string_bytes out.new ≡ string_bytes out.old ++ elements_text elements.now) }
{
    for element in elements {
        push_element(out, element)?;
    }
    Ok(())
}

/// Elements, or what stands for none.
pub fn push_data(out: &mut String<Global>, elements: &[Element]) -> Result<(), AllocError>
    ensures { OnOk result (string_bytes out.new ≡ string_bytes out.old ++ data_text elements.now) }
{
    if elements.is_empty() {
        return out.push_str("-");
    }
    push_elements(out, elements)
}
