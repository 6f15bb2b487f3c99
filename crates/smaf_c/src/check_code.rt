// The check code for C, of any bytes. It equals check_code of them.
ghost use Rattle.std.specs.Prelude.{◌≡◌};
ghost use Rattle.model.specs.CheckCode.{check_code};

#[unsafe(no_mangle)]
pub extern "C" fn smaf_check_code(bytes: &[u8]) -> u16
    ensures { result ≡ check_code bytes.now }
{
    checkcode::check_code(bytes)
}
