// Code that may run.
ghost use Rattle.std.specs.Prelude.{◌≡◌, true};
ghost use Rattle.njs_code.specs.Valid.{is_valid};

use crate::Code;
use std::marker::Model;

/// Code that never meets a missing operand, slot or operation. It is seen as the code.
#[derive(Drop)]
pub struct ValidCode {
    code: Code,
}

impl Model for ValidCode {
    ghost use Rattle.njs_code.specs.declared.code.Code.{Code};
    ghost use Rattle.njs_code.specs.contracts.code.Code as codes;

    ghost Value = { Code };

    ghost coded = { codes.the_row.coded };

    ghost use Rattle.std.specs.Prelude.{◌≡◌, true};
    ghost use Rattle.njs_code.specs.Valid.{is_valid};

    ghost view = { λ v. v.code };

    ghost invariant = { λ v. is_valid v.code ≡ true };
}

impl ValidCode {
    /// The caller knows that the code is valid, as after making it.
    pub fn new(code: Code) -> ValidCode
        requires { is_valid code ≡ true }
        ensures { result ≡ code }
    {
        ValidCode { code }
    }

    pub fn code(&self) -> &Code
        ensures same { result.now ≡ self.now }
        ensures valid { is_valid self.now ≡ true }
    {
        &self.code
    }
}
