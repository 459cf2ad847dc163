// A word of the host's at a unit whose buffers are lent: writes and reads of its registers.
ghost use Rattle.lent.specs.Both.{Does, ReadsFrom, TakesOut, Tells, WritesTo};

use crate::answer::Outcome;
use crate::buffers::{count_of, front, is_clear, push, without_oldest};
use crate::step::{Done, Lent};
use line::numbers::{
    CTR_RESET, KIND_READ, KIND_WRITE, RBF_BYTES, REG_CTR, REG_RBF, REG_TBF, TBF_BYTES,
};
use refusals::{check_read, check_write};
use registers::{read_value, write};
use rules::answer::Refusal;
use rules::state::Core;

impl Lent {
    // An accepted write.
    fn write_done(self, register: u8, v: u8, tbf: &mut [u8; TBF_BYTES]) -> Done
        ensures { Does self register v tbf.old tbf.new result }
    {
        if register == REG_TBF {
            let sent = push(tbf, self.tbf, v);
            return Lent { tbf: sent, ..self }.done(Ok(Outcome::Written));
        }
        if (register == REG_CTR) & (v == CTR_RESET) {
            return Lent::reset().done(Ok(Outcome::Written));
        }
        let core = Core {
            regs: write(self.core.regs, register, v),
            ..self.core
        };
        Lent { core, ..self }.done(Ok(Outcome::Written))
    }

    fn write(self, register: u8, v: u8, tbf: &mut [u8; TBF_BYTES]) -> Done
        ensures { WritesTo self register v tbf.old tbf.new result }
    {
        let waiting = count_of(TBF_BYTES, self.tbf);
        if let Err(refusal) = check_write(self.core.regs, waiting, register, v) {
            return self.done(Err(refusal));
        }
        self.write_done(register, v, tbf)
    }

    // The oldest byte of RBF is read, and leaves it.
    fn read_rbf(self, rbf: &[u8; RBF_BYTES]) -> Done
        ensures { TakesOut self rbf.now result }
    {
        let byte = front(rbf, self.rbf);
        let rest = without_oldest(RBF_BYTES, self.rbf);
        Lent { rbf: rest, ..self }.done(Ok(Outcome::Read(byte)))
    }

    fn read(self, register: u8, rbf: &[u8; RBF_BYTES]) -> Done
        ensures { ReadsFrom self register rbf.now result }
    {
        if let Err(refusal) = check_read(register, is_clear(RBF_BYTES, self.rbf)) {
            return self.done(Err(refusal));
        }
        if register == REG_RBF {
            return self.read_rbf(rbf);
        }
        let waiting = count_of(TBF_BYTES, self.tbf);
        let stored = count_of(RBF_BYTES, self.rbf);
        let value = read_value(self.core.regs, waiting, stored, register);
        self.done(Ok(Outcome::Read(value)))
    }

    // A word of the host's. Each kind returns for itself: as the arms of a `match`, a read takes a quarter longer.
    pub(crate) fn told(self, word: u32, tbf: &mut [u8; TBF_BYTES], rbf: &[u8; RBF_BYTES]) -> Done
        ensures { Tells self word tbf.old tbf.new rbf.now result }
    {
        let register = (word / 0x0100_0000 % 16) as u8;
        let kind = word / 0x1000_0000;
        if kind == KIND_WRITE {
            if word / 256 % 65536 == 0 {
                return self.write(register, (word % 256) as u8, tbf);
            }
            return self.done(Err(Refusal::StrayBit));
        }
        if kind == KIND_READ {
            if word % 0x0100_0000 == 0 {
                return self.read(register, rbf);
            }
            return self.done(Err(Refusal::StrayBit));
        }
        self.done(Err(Refusal::UnknownKind))
    }
}
