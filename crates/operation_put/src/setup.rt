// Document 01, "What each does": SETUP over the lent record.
ghost use Rattle.base_integers.specs.Signed.{word_of};
ghost use Rattle.fields_schema.specs.Tree.{guard};
ghost use Rattle.operation_put.specs.SetUp.{Set};

use access_record::Record;

pub fn setup(device: &mut Record, given: bool, version: i64)
    ensures { Set device.old (guard given (word_of version)) device.new }
{
    if !given {
        return;
    }
    access_table_write::set_cluster_version(device, version);
}
