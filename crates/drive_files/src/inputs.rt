//! How the keys of the Teletype are struck, and where they come from.
ghost use Rattle.std.specs.Prelude.{◌≡◌};
ghost use Rattle.drive_files.specs.Inputs as spec;

use terminal8::{Form, Input};

/// How keys are struck.
pub fn form_of(is_raw: bool) -> Form
    ensures { result ≡ spec.form_of is_raw }
{
    if is_raw { Form::Raw } else { Form::Text }
}

/// Where keys come from.
pub fn input_of(is_live: bool) -> Input
    ensures { result ≡ spec.input_of is_live }
{
    if is_live { Input::Live } else { Input::Ending }
}
